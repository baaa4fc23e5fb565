//! Pages of one file, of which those that were read last are kept. A page from here is the file's bytes, whatever the
//! site, and a page that is kept costs no call of the site. Stands on `lru` and on `fd_site`.
#![tactic(auto)]

mod pages;
#[cfg(test)]
mod tests;

pub use pages::Pages;
