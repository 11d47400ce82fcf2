//! The lines that a world has after its title, by their fronts.
use team_samples::SampleFault;

/// A line, with what stands after its front.
#[derive(Clone, Copy)]
pub enum Line<'a> {
    /// It says nothing.
    Blank,
    Moment(&'a str),
    Draw(&'a str),
    Input(&'a str),
    Most(&'a str),
    /// The kind of the calls that fail, and their numbers.
    Fail(&'a str, &'a str),
    /// The name of a file, and its pieces.
    Give(&'a str, &'a str),
    Run,
    /// A line that is printed.
    Prints(&'a str),
    /// What is printed of a line whose end is missing.
    PrintsPart(&'a str),
    Status(&'a str),
    /// The name of a file, and its sum.
    File(&'a str, &'a str),
    /// The name of a file, and its pieces.
    Holds(&'a str, &'a str),
}

/// The line that a text is. A text of no known front is a `BadWord`.
pub fn read_line(text: &str) -> Result<Line<'_>, SampleFault> {
    if text.is_empty() {
        return Ok(Line::Blank);
    }
    let (front, rest) = text.split_once(' ').unwrap_or((text, ""));
    let (first, others) = rest.split_once(' ').unwrap_or((rest, ""));
    match front {
        "moment" => Ok(Line::Moment(rest)),
        "draw" => Ok(Line::Draw(rest)),
        "input" => Ok(Line::Input(rest)),
        "most" => Ok(Line::Most(rest)),
        "fail" => read_failing(first, others),
        "give" => Ok(Line::Give(first, others)),
        "$" => Ok(Line::Run),
        "|" => Ok(Line::Prints(rest)),
        "|-" => Ok(Line::PrintsPart(rest)),
        "status" => Ok(Line::Status(rest)),
        "file" => Ok(Line::File(first, others)),
        "holds" => Ok(Line::Holds(first, others)),
        _ => Err(SampleFault::BadWord),
    }
}

// The calls of a kind that fail.
fn read_failing<'a>(kind: &'a str, numbers: &'a str) -> Result<Line<'a>, SampleFault> {
    match kind {
        "files" | "draws" | "input" | "output" => Ok(Line::Fail(kind, numbers)),
        _ => Err(SampleFault::BadWord),
    }
}
