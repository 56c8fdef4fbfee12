//! Pieces of a page, each put behind what stands there.
ghost use Rattle.std.specs.Prelude.{◌≡◌, ◌++◌, OnOk, codes};
ghost use Rattle.svg_page.specs.Texts.{box_open, count, escaped, escaped_byte, framed, group, label, number, scaled, view};

use itoa::Buffer;
use sched_base::NoMemory;

pub fn push(page: &mut Vec<u8>, text: &[u8]) -> Result<(), NoMemory>
    ensures { OnOk result (page.new.items ≡ page.old.items ++ text.now) }
{
    page.extend_from_slice(text)?;
    Ok(())
}

/// A number, and what stands before it.
pub fn push_number(page: &mut Vec<u8>, before: &[u8], z: i64) -> Result<(), NoMemory>
    ensures { OnOk result (page.new.items ≡ page.old.items ++ number before.now z) }
{
    let mut buffer = Buffer::new();
    page.extend_from_slice(before)?;
    page.extend_from_slice(buffer.format(z).as_bytes())?;
    Ok(())
}

/// The same for a number of more bits.
pub fn push_level(page: &mut Vec<u8>, before: &[u8], z: i128) -> Result<(), NoMemory>
    ensures { OnOk result (page.new.items ≡ page.old.items ++ number before.now z) }
{
    let mut buffer = Buffer::new();
    page.extend_from_slice(before)?;
    page.extend_from_slice(buffer.format(z).as_bytes())?;
    Ok(())
}

/// A count, and what stands before it.
pub fn push_count(page: &mut Vec<u8>, before: &[u8], n: u128) -> Result<(), NoMemory>
    ensures { OnOk result (page.new.items ≡ page.old.items ++ count before.now n) }
{
    let mut buffer = Buffer::new();
    page.extend_from_slice(before)?;
    page.extend_from_slice(buffer.format(n).as_bytes())?;
    Ok(())
}

fn push_byte(page: &mut Vec<u8>, b: u8) -> Result<(), NoMemory>
    ensures { OnOk result (page.new.items ≡ page.old.items ++ escaped_byte b) }
{
    if b == b'&' {
        return push(page, b"&amp;");
    }
    if b == b'<' {
        return push(page, b"&lt;");
    }
    if b == b'>' {
        return push(page, b"&gt;");
    }
    if b == b'"' {
        return push(page, b"&quot;");
    }
    if b == b'\'' {
        return push(page, b"&#39;");
    }
    page.push(b)?;
    Ok(())
}

/// A name, without signs that markup has a use for.
pub fn push_name(page: &mut Vec<u8>, name: &[u8]) -> Result<(), NoMemory>
    ensures { OnOk result (page.new.items ≡ page.old.items ++ escaped name.now) }
{
    for b in name {
        push_byte(page, *b)?;
    }
    Ok(())
}

/// Where a text stands, and how much room it has.
#[derive(Clone, Copy, Debug)]
pub struct Room {
    pub x: u128,
    pub y: u128,
    pub width: u128,
    pub height: u128,
}

fn push_box(page: &mut Vec<u8>, room: Room) -> Result<(), NoMemory>
    ensures { OnOk result (page.new.items ≡ page.old.items ++ box_open room.x room.y room.width room.height) }
{
    push_count(page, b"<svg x='", room.x)?;
    push_count(page, b"' y='", room.y)?;
    push_count(page, b"' width='", room.width)?;
    push_count(page, b"' height='", room.height)?;
    push(page, b"'>")
}

/// A text of which no more is seen than its room has.
pub fn push_label(page: &mut Vec<u8>, room: Room, name: &[u8]) -> Result<(), NoMemory>
    ensures { OnOk result (page.new.items ≡ page.old.items ++ label room.x room.y room.width room.height name.now) }
{
    push_box(page, room)?;
    push(page, b"<text x='3' y='50%' dy='.35em'>")?;
    push_name(page, name)?;
    push(page, b"</text></svg>\n")
}

/// The same in a frame.
pub fn push_framed(page: &mut Vec<u8>, room: Room, name: &[u8]) -> Result<(), NoMemory>
    ensures { OnOk result (page.new.items ≡ page.old.items ++ framed room.x room.y room.width room.height name.now) }
{
    push_box(page, room)?;
    push(
        page,
        b"<rect class='o' y='10%' width='100%' height='80%'/><text x='3' y='50%' dy='.35em'>",
    )?;
    push_name(page, name)?;
    push(page, b"</text></svg>\n")
}

/// A group whose places are counted from this one.
pub fn push_group(page: &mut Vec<u8>, x: u128, y: u128) -> Result<(), NoMemory>
    ensures { OnOk result (page.new.items ≡ page.old.items ++ group x y) }
{
    push_count(page, b"<g transform='translate(", x)?;
    push_count(page, b" ", y)?;
    push(page, b")'>\n")
}

/// The units of a drawing, and the height to which they are stretched.
#[derive(Clone, Copy, Debug)]
pub struct Scale {
    pub height: u128,
    pub left: i64,
    pub top: i128,
    pub width: u64,
    pub units: i128,
}

fn push_view(page: &mut Vec<u8>, scale: Scale) -> Result<(), NoMemory>
    ensures { OnOk result (page.new.items ≡ page.old.items ++ view scale.left scale.top scale.width scale.units) }
{
    push_number(page, b"", scale.left)?;
    push_level(page, b" ", scale.top)?;
    push_count(page, b" ", u128::from(scale.width))?;
    push_level(page, b" ", scale.units)?;
    push(page, b"'>\n")
}

/// Opens a drawing in units of its own.
pub fn push_scaled(page: &mut Vec<u8>, scale: Scale) -> Result<(), NoMemory>
    ensures { OnOk result (page.new.items ≡ page.old.items ++ scaled scale.height scale.left scale.top scale.width scale.units) }
{
    push_count(page, b"<svg width='1000' height='", scale.height)?;
    push(page, b"' preserveAspectRatio='none' viewBox='")?;
    push_view(page, scale)
}
