//! What is wrong with arguments that are no command, for a user at a terminal.
use domain_base::FromToken;
use std::fmt;

/// Says which argument is wrong, if that is seen: a line each, which begins with `denial: `. The
/// program prints it at a terminal, before its usage line. It explains, and promises nothing.
#[derive(Clone, Copy)]
pub struct Explanation<'a> {
    words: &'a [String],
}

impl<'a> Explanation<'a> {
    /// Returns the explanation of arguments that are no command.
    pub fn new(words: &'a [String]) -> Self {
        Explanation { words }
    }

    /// Returns the argument at a place, or an empty text if there are fewer.
    fn word(&self, place: usize) -> &'a str {
        match self.words.get(place) {
            Some(word) => word.as_str(),
            None => "",
        }
    }

    /// Says what is wrong with ITERATIONS and SALT.
    fn fmt_parameters<W: fmt::Write>(&self, f: &mut fmt::Formatter<W>) -> fmt::Result {
        let (iterations, salt) = (self.word(2), self.word(3));
        if u16::from_token(iterations).is_err() {
            writeln!(
                f,
                "denial: ITERATIONS is a number up to 65535, not '{iterations}'"
            )?;
        }
        if salt != "-" && !is_base16(salt) {
            writeln!(
                f,
                "denial: SALT is in Base 16, or - for none: '{salt}' is not"
            )?;
        }
        Ok(())
    }

    /// Says what is wrong with the arguments of `nsec3`.
    fn fmt_nsec3<W: fmt::Write>(&self, f: &mut fmt::Formatter<W>) -> fmt::Result {
        if self.words.len() < 4 {
            return writeln!(
                f,
                "denial: nsec3 takes APEX ITERATIONS SALT, and then optout or nothing"
            );
        }
        self.fmt_parameters(f)?;
        let last = self.word(4);
        if !last.is_empty() && last != "optout" {
            writeln!(
                f,
                "denial: after SALT comes optout or nothing, not '{last}'"
            )?;
        }
        Ok(())
    }

    /// Says what is wrong with `--labels` of a question.
    fn fmt_labels<W: fmt::Write>(&self, f: &mut fmt::Formatter<W>) -> fmt::Result {
        let (command, kind, labels) = (self.word(0), self.word(1), self.word(6));
        if command != "judge" || kind != "nsec3" {
            writeln!(
                f,
                "denial: {command} {kind} takes no --labels: only judge nsec3 does"
            )?;
        }
        if u8::from_token(labels).is_err() {
            writeln!(
                f,
                "denial: --labels takes a number up to 255, not '{labels}'"
            )?;
        }
        Ok(())
    }

    /// Says what is wrong with a question.
    fn fmt_question<W: fmt::Write>(&self, f: &mut fmt::Formatter<W>) -> fmt::Result {
        let (command, kind) = (self.word(0), self.word(1));
        if kind != "nsec" && kind != "nsec3" {
            writeln!(
                f,
                "denial: {command} takes nsec or nsec3 first, not '{kind}'"
            )?;
        } else if self.words.len() < 5 {
            writeln!(
                f,
                "denial: {command} {kind} takes three arguments, APEX NAME TYPE"
            )?;
        }
        if self.word(5) == "--labels" {
            self.fmt_labels(f)?;
        }
        Ok(())
    }

    /// Says what is wrong with the arguments of `lint`.
    fn fmt_lint<W: fmt::Write>(&self, f: &mut fmt::Formatter<W>) -> fmt::Result {
        match self.words.len() {
            2 => Ok(()),
            4 => self.fmt_parameters(f),
            _ => {
                writeln!(
                    f,
                    "denial: lint takes one argument, APEX, or three, APEX ITERATIONS SALT"
                )
            }
        }
    }
}

/// Returns whether a word is in Base 16, two digits an octet.
fn is_base16(word: &str) -> bool {
    let digits = word.as_bytes();
    !digits.is_empty() && digits.len() % 2 == 0 && digits.iter().all(|it| it.is_ascii_hexdigit())
}

impl fmt::Display for Explanation<'_> {
    fn fmt<W: fmt::Write>(&self, f: &mut fmt::Formatter<W>) -> fmt::Result {
        match self.word(0) {
            "nsec" if self.words.len() == 2 => Ok(()),
            "nsec" => writeln!(f, "denial: nsec takes one argument, APEX"),
            "nsec3" => self.fmt_nsec3(f),
            "check" | "judge" | "answer" => self.fmt_question(f),
            "lint" => self.fmt_lint(f),
            "zone" => {
                writeln!(
                    f,
                    "denial: zone takes one argument, APEX, and then unsigned or nothing"
                )
            }
            word => {
                writeln!(
                    f,
                    "denial: '{word}' is not a subcommand: nsec, nsec3, check, judge, answer, lint \
                     and zone are"
                )
            }
        }
    }
}
