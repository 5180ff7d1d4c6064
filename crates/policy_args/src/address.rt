//! Bus addresses: the paths of the Unix sockets in them.
ghost use Rattle.std.specs.Prelude.{◌≡◌, ◌<◌, ◌∷◌, ◌&&◌, not, nat_lt, Some as Just, None as Nothing, if◌then◌else◌, option_map, string_bytes, IfOk, IfSome};
ghost use Rattle.std.specs.Char.{is_ascii_hexdigit, digit_value};
ghost use Rattle.policy_args.specs.Addresses.{bus_path, bus_path_of, path_among, path_in, first_some, is_bus_path, unescaped, unescaped_part};
ghost use Rattle.policy_args.specs.Steps.{front_at, behind_at};
ghost use Rattle.std.specs.List.{list_all};
ghost use Rattle.dbus_names.specs.Names.{is_empty, parts_at};

use crate::entry::behind;
use std::alloc::{AllocError, Global};

// The path of the bus's socket in a list of addresses: the first `path` of the first address that begins with `unix:`
// and has a key `path` (D-Bus Specification, "Server Addresses").
pub(crate) fn read_address(alloc: Global, text: &str) -> Result<Option<String>, AllocError>
    ensures { IfOk result (λ path. option_map (λ p. string_bytes p) path ≡ bus_path text.now) }
{
    match first_path(text) {
        Some(path) => path_text(alloc, path),
        None => Ok(None),
    }
}

// The first path among addresses that are joined by semicolons.
fn first_path(text: &str) -> Option<&str>
    ensures { option_map (λ path. path.now) result ≡ first_some path_in (parts_at 59 text.now) }
{
    let mut rest = Some(text);
    while let Some(text) = rest {
        let (address, behind) = part(text, ';');
        if let Some(path) = path_of(address) {
            return Some(path);
        }
        rest = behind;
    }
    None
}

// The path of one address.
fn path_of(address: &str) -> Option<&str>
    ensures { option_map (λ path. path.now) result ≡ path_in address.now }
{
    match behind("unix:", address) {
        Some(pairs) => first_value(pairs),
        None => None,
    }
}

// The first path among pairs that are joined by commas.
fn first_value(pairs: &str) -> Option<&str>
    ensures { option_map (λ path. path.now) result ≡ path_among pairs.now }
{
    let mut rest = Some(pairs);
    while let Some(text) = rest {
        let (pair, others) = part(text, ',');
        if let Some(path) = behind("path=", pair) {
            return Some(path);
        }
        rest = others;
    }
    None
}

// The text before the first occurrence of an ASCII character, and the text after it.
fn part(text: &str, separator: char) -> (&str, Option<&str>)
    requires { separator < 128 }
    ensures front { result.0.now ≡ front_at separator text.now }
    ensures behind { option_map (λ t. t.now) result.1 ≡ behind_at separator text.now }
{
    match text.split_once(separator) {
        Some((front, behind)) => (front, Some(behind)),
        None => (text, None),
    }
}

// The path that this text spells, if a socket can have it.
fn path_text(alloc: Global, text: &str) -> Result<Option<String>, AllocError>
    ensures { IfOk result (λ path. option_map (λ p. string_bytes p) path ≡ bus_path_of text.now) }
{
    match unescape(alloc, text) {
        Ok(Some(path)) => Ok(checked(path)),
        Ok(None) => Ok(None),
        Err(error) => Err(error),
    }
}

// The bytes as a path, if a socket can have it.
fn checked(path: Vec<u8>) -> Option<String>
    ensures { option_map (λ p. string_bytes p) result ≡ (if is_bus_path path.items then Just path.items else Nothing) }
{
    if !has_path_bytes(&path) {
        return None;
    }
    match String::from_utf8(path) {
        Ok(path) => Some(path),
        Err(_) => None,
    }
}

// Whether there are bytes, and none is NUL.
fn has_path_bytes(path: &[u8]) -> bool
    ensures { result ≡ (not (is_empty path.now) && list_all (nat_lt 0) path.now) }
{
    !path.is_empty() && has_no_nul(path)
}

fn has_no_nul(path: &[u8]) -> bool
    ensures { result ≡ list_all (nat_lt 0) path.now }
{
    path.iter().all(|byte| 0 < *byte)
}

// The bytes with each `%` and two hexadecimal digits replaced by their byte.
fn unescape(alloc: Global, text: &str) -> Result<Option<Vec<u8>>, AllocError>
    ensures { IfOk result (λ bytes. option_map (λ b. b.items) bytes ≡ unescaped text.now) }
{
    let (front, mut rest) = part(text, '%');
    let mut bytes = Vec::new(alloc);
    bytes.extend_from_slice(front.as_bytes())?;
    while let Some(text) = rest {
        let (digits, behind) = part(text, '%');
        match escaped(digits.as_bytes()) {
            Some((byte, plain)) => {
                bytes.push(byte)?;
                bytes.extend_from_slice(plain)?;
            }
            None => return Ok(None),
        }
        rest = behind;
    }
    Ok(Some(bytes))
}

// The byte that the first two digits spell, and the bytes after them.
fn escaped(bytes: &[u8]) -> Option<(u8, &[u8])>
    ensures { option_map (λ p. p.0 ∷ p.1.now) result ≡ unescaped_part bytes.now }
{
    match bytes {
        [high, low, plain @ ..] => match (digit(*high), digit(*low)) {
            (Some(high), Some(low)) => Some((high * 16 + low, plain)),
            _ => None,
        },
        _ => None,
    }
}

// The value of a hexadecimal digit.
fn digit(byte: u8) -> Option<u8>
    ensures value { result ≡ (if is_ascii_hexdigit byte then Just (digit_value byte) else Nothing) }
    ensures small { IfSome result (λ d. d < 16) }
{
    match byte {
        b'0'..=b'9' => Some(byte - b'0'),
        b'a'..=b'f' => Some(byte - b'a' + 10),
        b'A'..=b'F' => Some(byte - b'A' + 10),
        _ => None,
    }
}
