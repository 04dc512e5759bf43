//! Numbers and ids are put into the texts of links.
ghost use Rattle.std.specs.Prelude.{◌≡◌, ◌<◌, ◌++◌, false, IfOk, OnOk};
ghost use Rattle.std.specs.Fmt.{decimal, digit_glyph};
ghost use Rattle.version_links.specs.Names.{hex};
ghost use Rattle.version_links.specs.Steps.{digits_behind, extended};

use itoa::Buffer;
use std::alloc::{AllocError, Global};

fn push_decimal(text: &mut Vec<u8>, n: u64) -> Result<(), AllocError>
    ensures { OnOk result (text.new.items ≡ text.old.items ++ decimal n) }
{
    let mut buffer = Buffer::new();
    text.extend_from_slice(buffer.format(n).as_bytes())
}

fn glyph(n: u64) -> u8
    requires { n < 16 }
    ensures { result ≡ digit_glyph false n }
{
    let digit = n as u8;
    if digit < 10 {
        b'0' + digit
    } else {
        b'a' - 10 + digit
    }
}

// The last so many hexadecimal digits of the number, the highest first.
fn push_hex(text: &mut Vec<u8>, count: usize, n: u64) -> Result<(), AllocError>
    ensures { OnOk result (text.new.items ≡ text.old.items ++ hex count n) }
{
    if count == 0 {
        return Ok(());
    }
    push_hex(text, count - 1, n / 16)?;
    let last = glyph(n % 16);
    text.push(last)?;
    Ok(())
}

fn push_digits(text: &mut Vec<u8>, mark: u8, n: u64) -> Result<(), AllocError>
    ensures { OnOk result (text.new.items ≡ text.old.items ++ digits_behind mark n) }
{
    if mark == b'_' {
        push_hex(text, 16, n)
    } else {
        push_decimal(text, n)
    }
}

/// The front with the mark and the number after it: an id after a `_`, and else in decimal.
pub fn with_number(alloc: Global, front: &[u8], mark: u8, n: u64) -> Result<Vec<u8>, AllocError>
    ensures { IfOk result (λ text. text.items ≡ extended front.now mark n) }
{
    let mut text = front.to_vec(alloc)?;
    text.push(mark)?;
    push_digits(&mut text, mark, n)?;
    Ok(text)
}
