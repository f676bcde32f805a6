// The steps that set an item of a lent slice, or print a part of one.
use crate::step::BadStep;
use crate::stop::Stop;
use std::fmt::Radix;
use std::io::{Print, Stdout};
use std::ops::Range;

// What stands where no call wrote.
pub(crate) const UNWRITTEN_BYTE: u8 = 0xa5;

pub(crate) const UNWRITTEN_WORD: u32 = 0xa5a5a5a5;

// The items of a part that the slice has.
pub(crate) fn part_of<T>(slice: &[T], part: Range<usize>) -> Result<&[T], BadStep> {
    slice.get(part).ok_or(BadStep)
}

// The item at `index`.
pub(crate) fn set<T: Copy>(
    out: Stdout,
    slice: &mut [T],
    index: usize,
    item: T,
) -> Result<(), Stop> {
    *slice.get_mut(index).ok_or(BadStep)? = item;
    println!(out; "set")?;
    Ok(())
}

// The items of a part, each in so many hex digits.
pub(crate) fn show<T: Radix + Copy>(
    out: Stdout,
    name: &str,
    slice: &[T],
    part: Range<usize>,
    digits: usize,
) -> Result<(), Stop> {
    let shown = part_of(slice, part)?;
    print!(out; "{name} ")?;
    for item in shown {
        print!(out; "{item:0digits$x}")?;
    }
    println!(out)?;
    Ok(())
}
