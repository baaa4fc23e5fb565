//! What a text of `info.N` says.

ghost use Rattle.std.specs.Prelude.{◌≡◌, ◌↔◌, IfSome, IsTrue, Some};
ghost use Rattle.fd_info.specs.Info.{IsDevice, IsPlain, IsPlainInfo, IsTyped, text_of_info};
ghost use Rattle.fd_info.specs.declared.info.Info as says;

use crate::info::Info;
use crate::keys;
use crate::lines::Lines;
use crate::printing::print_info;
use fd_bytes::Label;
use fd_kdh::Header;

/// What the text says, where it is what `print_info` gives of a header that is neither compressed nor encrypted and whose
/// extent is its length; None for every other text.
pub fn read_info(text: &[u8]) -> Option<Info>
    ensures text { IfSome result (λ info. text_of_info info ≡ text.now) }
    ensures plain { IfSome result IsPlainInfo }
    ensures each { (info : says.Info) → IsPlainInfo info → IsTyped info → text_of_info info ≡ text.now → result ≡ Some info }
{
    let info = said_in(text);
    if !is_device(info.device.bytes()) {
        return None;
    }
    // One spelling alone is read: zeros before a number, or a byte that is escaped without need, make another text.
    let again = print_info(&info.header, info.device.bytes(), info.parity, info.number);
    if again.as_slice() == text {
        Some(info)
    } else {
        None
    }
}

// What is said in a text that says something.
fn said_in(text: &[u8]) -> Info
    ensures plain { IsPlain result.header }
    ensures said { (info : says.Info) → IsPlainInfo info → IsTyped info → text_of_info info ≡ text.now → result ≡ info }
{
    let mut lines = Lines::new(text);
    let device = Label::cut(lines.value(keys::DEVICE));
    let architecture = lines.text(keys::ARCHITECTURE);
    let architectureversion = lines.small_number(keys::ARCHITECTURE_VERSION);
    let dumplength = lines.number(keys::DUMP_LENGTH);
    let blocksize = lines.small_number(keys::BLOCKSIZE);
    let _none = lines.value(keys::COMPRESSION);
    let dumptime = lines.number(keys::DUMPTIME);
    let hostname = lines.text(keys::HOSTNAME);
    let _magic = lines.value(keys::MAGIC);
    let versionstring = lines.text(keys::VERSION_STRING);
    let panicstring = lines.text(keys::PANIC_STRING);
    let parity = lines.word(keys::DUMP_PARITY);
    let number = lines.small_number(keys::BOUNDS);
    let header = Header {
        architecture,
        architectureversion,
        dumplength,
        dumptime,
        dumpkeysize: 0,
        blocksize,
        hostname,
        versionstring,
        panicstring,
        compression: 0,
        dumpextent: dumplength,
    };
    Info {
        header,
        device,
        parity,
        number,
    }
}

fn is_device(device: &[u8]) -> bool
    ensures { IsTrue result ↔ IsDevice device.now }
{
    device.len() <= 16 && device.iter().all(|byte| matches!(*byte, 0x20..=0x7e))
}
