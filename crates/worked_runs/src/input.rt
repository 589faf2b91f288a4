//! The words and the lines of a run.
use std::alloc::{AllocError, Global};

/// Returns the words of a line, which have a space between them.
pub fn words(alloc: Global, line: &str) -> Result<Vec<String>, AllocError> {
    let mut words = Vec::new(alloc);
    for word in line.split(' ') {
        words.push(String::from_str(alloc, word)?)?;
    }
    Ok(words)
}

/// Adds what the text between braces means: `CR` and `TAB` are these characters, `126 a.` is `a.`
/// 126 times, and `END` is nothing.
fn add_marked(text: &mut String, marked: &str) -> Result<(), AllocError> {
    match marked {
        "CR" => text.push('\r')?,
        "TAB" => text.push('\t')?,
        _ => {
            let (count, repeated) = marked.split_once(' ').unwrap_or(("0", ""));
            for _ in 0..count.parse::<u32>().unwrap_or(0) {
                text.push_str(repeated)?;
            }
        }
    }
    Ok(())
}

/// Adds a line that is read, and its end, unless the line ends with `{END}`.
fn add_one(text: &mut String, line: &str) -> Result<(), AllocError> {
    for part in line.split('{') {
        match part.split_once('}') {
            Some((marked, plain)) => {
                add_marked(text, marked)?;
                text.push_str(plain)?;
            }
            None => text.push_str(part)?,
        }
    }
    if !line.ends_with("{END}") {
        text.push('\n')?;
    }
    Ok(())
}

/// Adds the line that is read, which is after the first space. A number before that space says how
/// many times the line is read.
pub fn add_line(text: &mut String, spelled: &str) -> Result<(), AllocError> {
    let (count, line) = spelled.split_once(' ').unwrap_or(("", spelled));
    for _ in 0..count.parse::<u32>().unwrap_or(1) {
        add_one(text, line)?;
    }
    Ok(())
}
