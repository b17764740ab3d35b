//! What the calls for the columns of a table give. What a column needs is written as its widest word
//! and its widest line, with a colon between.
use crate::faults::Fault;
use crate::notation::{numbers_written, or_none, push_word, rows_written};
use crate::settings::number;
use std::alloc::{AllocError, Global};
use textwrap::{Options, WrapAlgorithm};
use textwrap_display::{Alignment, Column, Gaps, Layout, Need, fitting_widths, needs_of, table};

/// Texts as cells.
fn cells_of<'t>(alloc: Global, texts: &'t [String]) -> Result<Vec<&'t str>, AllocError> {
    let mut cells = Vec::new(alloc);
    for text in texts {
        cells.push(text.as_str())?;
    }
    Ok(cells)
}

/// The alignment of this name.
fn alignment(name: &str) -> Result<Alignment, Fault> {
    match name {
        "left" => Ok(Alignment::Left),
        "right" => Ok(Alignment::Right),
        "centre" => Ok(Alignment::Centre),
        _ => Err(Fault::Malformed),
    }
}

/// The width and the alignment of each column, as in `4:left,5:centre`, or `none`. They are no columns yet,
/// since options hold functions, which no function hands out.
fn columns_of(alloc: Global, written: &str) -> Result<Vec<(usize, Alignment)>, Fault> {
    let mut columns = Vec::new(alloc);
    if written == "none" {
        return Ok(columns);
    }
    for column in written.split(',') {
        let Some((width, name)) = column.split_once(":") else {
            return Err(Fault::Malformed);
        };
        columns.push((number(width)?, alignment(name)?))?;
    }
    Ok(columns)
}

/// `table LEFT MIDDLE RIGHT COLUMNS TEXTS..`: the rows of the texts by first fit, with these gaps.
pub fn tabled(alloc: Global, arguments: &[String]) -> Result<String, Fault> {
    let [left, middle, right, written, texts @ ..] = arguments else {
        return Err(Fault::Malformed);
    };
    let mut columns = Vec::new(alloc);
    for &(width, alignment) in &columns_of(alloc, written.as_str())? {
        let options = Options::new(width).wrap_algorithm(WrapAlgorithm::FirstFit);
        columns.push(Column {
            layout: Layout::of(&options),
            parts: options,
            alignment,
        })?;
    }
    let gaps = Gaps {
        left: left.as_str(),
        middle: middle.as_str(),
        right: right.as_str(),
    };
    let rows = table(alloc, &cells_of(alloc, texts)?, &columns, &gaps)?;
    Ok(rows_written(alloc, &rows)?)
}

/// `fit TOTAL NEEDS..`: the widths of columns that need this.
pub fn fitted(alloc: Global, arguments: &[String]) -> Result<String, Fault> {
    let [total, needs @ ..] = arguments else {
        return Err(Fault::Malformed);
    };
    let mut read = Vec::new(alloc);
    for need in needs {
        let Some((least, most)) = need.split_once(":") else {
            return Err(Fault::Malformed);
        };
        read.push(Need {
            least: number(least)?,
            most: number(most)?,
        })?;
    }
    let widths = fitting_widths(alloc, number(total.as_str())?, &read)?;
    Ok(numbers_written(alloc, &widths)?)
}

/// `needs COLUMNS TEXTS..`: what each of so many columns needs.
pub fn needed(alloc: Global, arguments: &[String]) -> Result<String, Fault> {
    let [columns, texts @ ..] = arguments else {
        return Err(Fault::Malformed);
    };
    let cells = cells_of(alloc, texts)?;
    let mut row = String::new(alloc);
    for need in &needs_of(alloc, &cells, number(columns.as_str())?)? {
        push_word(
            &mut row,
            &format!(in alloc; "{}:{}", need.least, need.most)?,
        )?;
    }
    Ok(or_none(row)?)
}
