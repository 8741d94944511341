use anyhow::Result;
use scene_script::parted;

/// The line of a call: the name for its handle, empty where it has none, how often it is made, and the call.
#[derive(Clone, Copy, Debug)]
pub struct Line<'a> {
    pub name: &'a str,
    pub times: u32,
    pub call: &'a str,
}

/// Reads the line of a call.
pub fn line_of(text: &str) -> Result<Line<'_>> {
    let (name, made) = match text.split_once(" = ") {
        Some((name, made)) => (name, made),
        None => ("", text),
    };
    let (word, rest) = parted(made);
    if word != "times" {
        return Ok(Line {
            name,
            times: 1,
            call: made,
        });
    }
    let (count, call) = parted(rest);
    let times = count.parse::<u32>()?;
    Ok(Line { name, times, call })
}
