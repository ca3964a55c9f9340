// The notation of the texts in a table.
ghost use Rattle.std.specs.Prelude.{◌<◌, ◌≤◌, length, IfSome, IfOk};

use anyhow::anyhow;
use std::alloc::{AllocError, Global};

// A digit in base sixteen, in lower case alone (`to_digit` takes upper case too).
fn hex_digit(byte: u8) -> Option<u8>
    ensures { IfSome result (λ digit. digit < 16) }
{
    match byte {
        b'0'..=b'9' => Some(byte - b'0'),
        b'a'..=b'f' => Some(byte - b'a' + 10),
        _ => None,
    }
}

// The byte that a piece begins with, and the piece after it.
fn split_byte(piece: &[u8]) -> Option<(u8, &[u8])>
    ensures { IfSome result (λ split. length split.1.now < length piece.now) }
{
    match piece {
        [b'\\', b'n', rest @ ..] => Some((b'\n', rest)),
        [b'\\', b'r', rest @ ..] => Some((b'\r', rest)),
        [b'\\', b't', rest @ ..] => Some((b'\t', rest)),
        [b'\\', b'x', high, low, rest @ ..] => {
            Some((hex_digit(*high)? * 16 + hex_digit(*low)?, rest))
        }
        [b'\\', ..] | [] => None,
        [byte, rest @ ..] => Some((*byte, rest)),
    }
}

// Adds the bytes that a notation begins with, and gives what is left: nothing, or what writes no byte.
fn add_bytes<'a>(out: &mut Vec<u8>, notation: &'a [u8]) -> Result<&'a [u8], AllocError>
    ensures { IfOk result (λ rest. length rest.now ≤ length notation.now) }
{
    let mut rest = notation;
    while let Some((byte, after)) = split_byte(rest) {
        out.push(byte)?;
        rest = after;
    }
    Ok(rest)
}

// What stands before and after the first such mark. Over bytes, unlike `split_once`, as a repeat passes over one byte after
// its number, whatever that is.
fn split_at_mark<'a>(notation: &'a [u8], mark: &[u8; 2]) -> Option<(&'a [u8], &'a [u8])>
    ensures { IfSome result (λ split. length split.1.now < length notation.now) }
{
    let place = notation
        .windows(mark.len())
        .position(|pair| pair == mark.as_slice())?;
    Some((&notation[..place], &notation[place + mark.len()..]))
}

// The number that a notation begins with, which is 0 where there is none, and the notation after it. A number that is too
// large stays at the largest (`parse` would refuse it).
fn split_number(notation: &[u8]) -> (u32, &[u8])
    ensures { length result.1.now ≤ length notation.now }
{
    let mut number: u32 = 0;
    let mut rest = notation;
    while let [digit @ b'0'..=b'9', after @ ..] = rest {
        number = number
            .saturating_mul(10)
            .saturating_add(u32::from(*digit - b'0'));
        rest = after;
    }
    (number, rest)
}

// A piece that is written several times, and the notation after it.
#[derive(Drop)]
struct Repeat<'a> {
    times: u32,
    piece: &'a [u8],
    rest: &'a [u8],
}

// Reads what follows the opening mark of a repeat.
fn split_repeat(notation: &[u8]) -> Option<Repeat<'_>>
    ensures { IfSome result (λ repeat. length repeat.rest.now ≤ length notation.now) }
{
    let (times, rest) = split_number(notation);
    if times == 0 {
        return None;
    }
    let (_space, rest) = rest.split_first()?;
    let (piece, rest) = split_at_mark(rest, b"\\}")?;
    Some(Repeat { times, piece, rest })
}

// Adds the bytes of a repeat; false where its piece has what writes no byte. The piece is read once, and what it wrote is copied.
// A piece of nothing is not gone over, however often it is to be written.
fn add_repeat(out: &mut Vec<u8>, repeat: &Repeat<'_>) -> Result<bool, AllocError> {
    if repeat.piece.is_empty() {
        return Ok(true);
    }
    let from = out.len();
    let rest = add_bytes(out, repeat.piece)?;
    let to = out.len();
    if !rest.is_empty() {
        return Ok(false);
    }
    if from < to {
        for _ in 1..repeat.times {
            out.extend_from_within(from..to)?;
        }
    }
    Ok(true)
}

// The bytes that a notation writes. (An error of `context(..)?` would be laid out anew for each repeat, whether it comes or not.)
pub(crate) fn expand(heap: Global, notation: &[u8]) -> anyhow::Result<Vec<u8>> {
    let mut out = Vec::new(heap);
    let mut rest = notation;
    while !rest.is_empty() {
        if let [b'\\', b'{', after @ ..] = rest {
            let Some(repeat) = split_repeat(after) else {
                return Err(anyhow!("the table has a repeat without its number or its end"));
            };
            if !add_repeat(&mut out, &repeat)? {
                break;
            }
            rest = repeat.rest;
        } else {
            let left = add_bytes(&mut out, rest)?;
            if left.len() == rest.len() {
                break;
            }
            rest = left;
        }
    }
    if !rest.is_empty() {
        return Err(anyhow!("the table has a byte that is not in its notation"));
    }
    Ok(out)
}
