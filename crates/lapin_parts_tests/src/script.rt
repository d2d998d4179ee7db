//! What runs a script: each line is a call of a part, an arrow, and the answer that is wanted. A line that a part can't read has the
//! answer `?`, which no script wants, or ends its test.
use std::alloc::Global;
use std::process::Abort;
use std::test::Fail;

/// A part that makes the calls of a script, and tells in words what each answered.
pub trait Part: Drop {
    /// Makes one call.
    fn answer(&mut self, alloc: Global, call: &Words) -> Result<String, Fail>;
}

#[derive(Clone, Copy)]
/// The words of a call: its name and its arguments, empty where there are fewer.
pub struct Words<'a> {
    /// The call's name.
    pub name: &'a str,
    /// Mostly a channel or a number.
    pub first: &'a str,
    /// The second argument.
    pub second: &'a str,
    /// The third argument.
    pub third: &'a str,
    /// The fourth argument.
    pub fourth: &'a str,
}

/// Runs a script on a part.
pub fn runs<P: Part>(
    rt: &impl Abort,
    alloc: Global,
    mut part: P,
    script: &str,
) -> Result<(), Fail> {
    for line in script.lines() {
        let (call, wanted) = line
            .trim()
            .split_once(" -> ")
            .ok_or("an answer is missing")?;
        let told = part.answer(alloc, &words_of(call))?;
        assert_eq!(rt; told.as_str(), wanted, "at {line}");
    }
    Ok(())
}

fn words_of(call: &str) -> Words<'_> {
    let mut words = call.split(' ');
    Words {
        name: words.next().unwrap_or(""),
        first: words.next().unwrap_or(""),
        second: words.next().unwrap_or(""),
        third: words.next().unwrap_or(""),
        fourth: words.next().unwrap_or(""),
    }
}
