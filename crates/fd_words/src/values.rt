//! The commands that have values, by how many they have, and the check of each value.

ghost use Rattle.std.specs.Prelude.{◌≡◌, IfOk, map};
ghost use Rattle.std.specs.Option.{option_map};
ghost use Rattle.fd_bytes.specs.Number.{number_of};
ghost use Rattle.fd_words.specs.Address.{address_of};
ghost use Rattle.fd_words.specs.Command.{command_of_four, command_of_one, command_of_three, command_of_two, command_of_values};
ghost use Rattle.fd_words.specs.Command.{drill_of, dump_of, HasGoodNames, image_of, netdump_of, netdumpd_of, pages_of, read_of};
ghost use Rattle.fd_words.specs.Source.{arch_of, source_of};

use crate::address::read_address;
use crate::command::Command;
use crate::source::{read_arch, read_source};
use crate::word::Word;
use fd_bytes::read_number;
use fd_site::good_name;
use std::alloc::{AllocError, Global};

/// The most bytes that one `read` or `drill` prints.
const MOST_READ: u64 = 1_048_576;

/// The most dumps that one server takes.
const MOST_DUMPS: u64 = 16;

// `image` to this file.
fn image_command(
    alloc: Global,
    arch: &str,
    number: &str,
    file: &str,
) -> Result<Option<Command>, AllocError>
    ensures value { IfOk result (λ command. command ≡ image_of (arch_of arch.now) (number_of number.now) file.now) }
    ensures names { IfOk result HasGoodNames }
{
    let arch = match read_arch(arch.as_bytes()) {
        Some(arch) => arch,
        None => return Ok(None),
    };
    let number = match read_number(number.as_bytes()) {
        Ok(number) => number,
        Err(_) => return Ok(None),
    };
    if !good_name(file) {
        return Ok(None);
    }
    let file = Word::of(alloc, file)?;
    Ok(Some(Command::Image { arch, number, file }))
}

// `dump` of this image, over a dump that is marked first, or not.
fn dump_command(alloc: Global, image: &str, mark: bool) -> Result<Option<Command>, AllocError>
    ensures value { IfOk result (λ command. command ≡ option_map (λ source. Command.Dump mark source) (source_of image.now)) }
    ensures names { IfOk result HasGoodNames }
{
    match read_source(alloc, image)? {
        Some(image) => Ok(Some(Command::Dump { mark, image })),
        None => Ok(None),
    }
}

/// `dump` with these values, if there is one.
pub(crate) fn dump_of(
    alloc: Global,
    values: &[&str],
    mark: bool,
) -> Result<Option<Command>, AllocError>
    ensures value { IfOk result (λ command. command ≡ dump_of mark (map (λ s. s.now) values.now)) }
    ensures names { IfOk result HasGoodNames }
{
    match values {
        [image] => dump_command(alloc, *image, mark),
        _ => Ok(None),
    }
}

// `netdump` of this image to this server.
fn netdump_command(alloc: Global, image: &str, address: &str) -> Result<Option<Command>, AllocError>
    ensures value { IfOk result (λ command. command ≡ netdump_of (address_of address.now) (source_of image.now)) }
    ensures names { IfOk result HasGoodNames }
{
    let server = match read_address(address) {
        Some(server) => server,
        None => return Ok(None),
    };
    match read_source(alloc, image)? {
        Some(image) => Ok(Some(Command::Netdump { image, server })),
        None => Ok(None),
    }
}

// `netdumpd` for so many dumps.
fn netdumpd_command(dumps: &str) -> Option<Command>
    ensures value { result ≡ netdumpd_of (number_of dumps.now) }
    ensures names { HasGoodNames result }
{
    match read_number(dumps.as_bytes()) {
        Ok(dumps) if 1 <= dumps && dumps <= MOST_DUMPS => Some(Command::Netdumpd {
            dumps: dumps as u16,
        }),
        _ => None,
    }
}

// `read` of this file.
fn read_command_of(
    alloc: Global,
    file: &str,
    address: &str,
    count: &str,
) -> Result<Option<Command>, AllocError>
    ensures value { IfOk result (λ command. command ≡ read_of file.now (number_of address.now) (number_of count.now)) }
    ensures names { IfOk result HasGoodNames }
{
    let address = match read_number(address.as_bytes()) {
        Ok(address) => address,
        Err(_) => return Ok(None),
    };
    let count = match read_number(count.as_bytes()) {
        Ok(count) => count,
        Err(_) => return Ok(None),
    };
    if !good_name(file) || count > MOST_READ {
        return Ok(None);
    }
    let file = Word::of(alloc, file)?;
    Ok(Some(Command::Read {
        file,
        address,
        count: count as u32,
    }))
}

// `pages` of this file.
fn pages_command(alloc: Global, file: &str) -> Result<Option<Command>, AllocError>
    ensures value { IfOk result (λ command. command ≡ pages_of file.now) }
    ensures names { IfOk result HasGoodNames }
{
    if !good_name(file) {
        return Ok(None);
    }
    let file = Word::of(alloc, file)?;
    Ok(Some(Command::Pages { file }))
}

// `drill` of this image.
fn drill_command(
    alloc: Global,
    image: &str,
    stop: &str,
    address: &str,
    count: &str,
) -> Result<Option<Command>, AllocError>
    ensures value { IfOk result (λ command. command ≡ drill_of (number_of stop.now) (number_of address.now) (number_of count.now) (source_of image.now)) }
    ensures names { IfOk result HasGoodNames }
{
    let stop = match read_number(stop.as_bytes()) {
        Ok(stop) => stop,
        Err(_) => return Ok(None),
    };
    let address = match read_number(address.as_bytes()) {
        Ok(address) => address,
        Err(_) => return Ok(None),
    };
    let count = match read_number(count.as_bytes()) {
        Ok(count) => count,
        Err(_) => return Ok(None),
    };
    match read_source(alloc, image)? {
        Some(image) if count <= MOST_READ => Ok(Some(Command::Drill {
            image,
            stop,
            address,
            count: count as u32,
        })),
        _ => Ok(None),
    }
}

// A command of one value.
fn command_of_one(alloc: Global, name: &str, value: &str) -> Result<Option<Command>, AllocError>
    ensures value { IfOk result (λ command. command ≡ command_of_one name.now value.now) }
    ensures names { IfOk result HasGoodNames }
{
    if name == "netdumpd" {
        return Ok(netdumpd_command(value));
    }
    if name == "pages" {
        return pages_command(alloc, value);
    }
    Ok(None)
}

// A command of two values.
fn command_of_two(
    alloc: Global,
    name: &str,
    first: &str,
    second: &str,
) -> Result<Option<Command>, AllocError>
    ensures value { IfOk result (λ command. command ≡ command_of_two name.now first.now second.now) }
    ensures names { IfOk result HasGoodNames }
{
    if name == "netdump" {
        return netdump_command(alloc, first, second);
    }
    Ok(None)
}

// A command of three values.
fn command_of_three(
    alloc: Global,
    name: &str,
    first: &str,
    second: &str,
    third: &str,
) -> Result<Option<Command>, AllocError>
    ensures value { IfOk result (λ command. command ≡ command_of_three name.now first.now second.now third.now) }
    ensures names { IfOk result HasGoodNames }
{
    if name == "image" {
        return image_command(alloc, first, second, third);
    }
    if name == "read" {
        return read_command_of(alloc, first, second, third);
    }
    Ok(None)
}

// A command of four values.
fn command_of_four(
    alloc: Global,
    name: &str,
    first: &str,
    second: &str,
    third: &str,
    fourth: &str,
) -> Result<Option<Command>, AllocError>
    ensures value { IfOk result (λ command. command ≡ command_of_four name.now first.now second.now third.now fourth.now) }
    ensures names { IfOk result HasGoodNames }
{
    if name == "drill" {
        return drill_command(alloc, first, second, third, fourth);
    }
    Ok(None)
}

/// The command of this name with these values and no option, if there is one.
pub(crate) fn command_of_values(
    alloc: Global,
    name: &str,
    values: &[&str],
) -> Result<Option<Command>, AllocError>
    ensures value { IfOk result (λ command. command ≡ command_of_values name.now (map (λ s. s.now) values.now)) }
    ensures names { IfOk result HasGoodNames }
{
    match values {
        [value] => command_of_one(alloc, name, *value),
        [first, second] => command_of_two(alloc, name, *first, *second),
        [first, second, third] => command_of_three(alloc, name, *first, *second, *third),
        [first, second, third, fourth] => {
            command_of_four(alloc, name, *first, *second, *third, *fourth)
        }
        _ => Ok(None),
    }
}
