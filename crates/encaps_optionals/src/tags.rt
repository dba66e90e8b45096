//! Tags of optional members, each with its format. (Ice manual, "Data Encoding for Optional Values".)

ghost use Rattle.std.specs.Prelude.{◌≡◌, ◌++◌, ◌<◌, ◌≤◌, ◌^◌, OnOk, OnErr};
ghost use Rattle.ice_prims.specs.Bytes.{Grows};
ghost use Rattle.ice_prims.specs.Taking.{Takes};
ghost use Rattle.ice_encoding.specs.Tags as spec;
ghost use Rattle.encaps_optionals.specs.Answers.{Sees, EndsTags};

use ice_prims::{Cursor, Fault, Kind, put_byte, put_size};
use std::alloc::AllocError;

/// The tag that stands next, above the last one, and its format; None at the end of the members, which
/// is the byte 255 where they are `marked`, and else the end of the bound. `BadTag` at the leading byte
/// where that is none, or the tag does not rise. A refusal leaves the cursor as it was.
pub fn take_tag(
    cursor: &mut Cursor<'_>,
    last: Option<u32>,
    marked: bool,
) -> Result<Option<(u32, u8)>, Fault>
    ensures { Takes (λ x. x) result cursor.old cursor.new (spec.next_tag_at last marked cursor.old) }
{
    if take_end(cursor, marked) {
        return Ok(None);
    }
    let wrong = cursor.fault(Kind::BadTag);
    let mut ahead = cursor.fork();
    let (tag, format) = take_plain_tag(&mut ahead)?;
    if !rises(last, tag) {
        return Err(wrong);
    }
    *cursor = ahead;
    Ok(Some((tag, format)))
}

/// Whether the members end here. Their marker is taken, where they have one.
fn take_end(cursor: &mut Cursor<'_>, marked: bool) -> bool
    ensures { EndsTags result marked cursor.old cursor.new }
{
    let mut ahead = cursor.fork();
    match ahead.take_byte() {
        Ok(255) if marked => {
            *cursor = ahead;
            true
        }
        Ok(_) => false,
        Err(_) => !marked,
    }
}

/// Whether a tag is above the last one.
fn rises(last: Option<u32>, tag: u32) -> bool
    ensures { result ≡ spec.rises last tag }
{
    match last {
        Some(last) => last < tag,
        None => true,
    }
}

/// A tag and its format, whatever stood before them.
fn take_plain_tag(cursor: &mut Cursor<'_>) -> Result<(u32, u8), Fault>
    ensures { Sees (λ x. x) result cursor.new (spec.tag.read cursor.old) }
{
    let wrong = cursor.fault(Kind::BadTag);
    let lead = cursor.take_byte()?;
    if lead >= 248 {
        return Err(wrong);
    }
    if lead < 240 {
        return Ok((u32::from(lead / 8), lead % 8));
    }
    let tag = cursor.take_size()?;
    if tag < 30 {
        return Err(wrong);
    }
    Ok((tag, lead % 8))
}

/// Appends a tag and its format, 0 to 7. Out of memory leaves the output as it was.
pub fn put_tag(out: &mut Vec<u8>, tag: u32, format: u8) -> Result<(), AllocError>
    requires tag { tag < 2 ^ 31 }
    requires format { format ≤ 7 }
    ensures ok { OnOk result (out.new.items ≡ out.old.items ++ spec.tag.put (tag, format)) }
    ensures err { OnErr result (out.new.items ≡ out.old.items) }
{
    let start = out.len();
    let result = append_tag(out, tag, format);
    if result.is_err() {
        out.truncate(start);
    }
    result
}

/// Appends as `put_tag` does, but out of memory may leave a part at the end.
fn append_tag(out: &mut Vec<u8>, tag: u32, format: u8) -> Result<(), AllocError>
    requires tag { tag < 2 ^ 31 }
    requires format { format ≤ 7 }
    ensures ok { OnOk result (out.new.items ≡ out.old.items ++ spec.tag.put (tag, format)) }
    ensures err { OnErr result (Grows out.old.items out.new.items) }
{
    if tag < 30 {
        return put_byte(out, tag as u8 * 8 + format);
    }
    put_byte(out, 240 + format)?;
    put_size(out, tag)
}
