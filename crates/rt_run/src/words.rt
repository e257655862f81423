// The words after the program's name.
ghost use Rattle.std.specs.Prelude.{◌≡◌, ◌∷◌, ℕ, List, MatchOption, Option, Some, None, map, option_copied};
ghost use Rattle.std.specs.String.{string_bytes};
ghost use Rattle.rt_run.specs.Words.{command_of, entail_by, entail_of, is_argument, no_options, report_of};
ghost use Rattle.rt_run.specs.Inside.Meant.{meaning, options_of};

use crate::content::{Content, Told};

/// The files that options name.
#[derive(Clone, Copy)]
pub struct Options<'a> {
    /// The file of a lattice.
    pub lattice: Option<&'a str>,
    /// The file of the signatures of functions outside.
    pub signatures: Option<&'a str>,
}

/// What the words ask for.
#[derive(Clone, Copy)]
pub enum Request<'a> {
    /// What is written of an object.
    Report {
        /// What this is.
        content: Content,
        /// The files that options name.
        options: Options<'a>,
        /// The object's name.
        object: &'a str,
    },
    /// Whether a judgement is derivable from the lines of a file.
    Entail {
        /// The file of a lattice.
        lattice: Option<&'a str>,
        /// The file's name.
        file: &'a str,
        /// The judgement's text.
        judgement: &'a str,
    },
}

// Whether a word may be an argument: it isn't empty and doesn't begin with a dash.
fn may_be_argument(word: &str) -> bool
    ensures { result ≡ is_argument word.now }
{
    match word.as_bytes() {
        [] => false,
        [first, ..] => *first != b'-',
    }
}

impl<'a> Options<'a> {
    // The options with one more, of this word and file, if that is one that isn't there yet.
    fn with(self, word: &str, file: &'a str) -> Option<Options<'a>>
        ensures { (content : Content) (rest : List (List ℕ)) →
            MatchOption result (report_of content (options_of self.entry) (word.now ∷ file.now ∷ rest) ≡ None)
            (λ options. report_of content (options_of self.entry) (word.now ∷ file.now ∷ rest) ≡
            report_of content (options_of options) rest) }
    {
        match word {
            "--lattice" if self.lattice.is_none() && may_be_argument(file) => Some(Options {
                lattice: Some(file),
                signatures: self.signatures,
            }),
            "--signatures" if self.signatures.is_none() && may_be_argument(file) => Some(Options {
                lattice: self.lattice,
                signatures: Some(file),
            }),
            _ => None,
        }
    }
}

// The request of the words after a command for an object.
fn read_report(content: Content, words: &[String]) -> Option<Request<'_>>
    ensures { MatchOption result (report_of content no_options (map string_bytes words.now) ≡ None)
        (λ request. report_of content no_options (map string_bytes words.now) ≡ Some (meaning request)) }
{
    let mut options = Options {
        lattice: None,
        signatures: None,
    };
    let mut rest = words;
    while let [word, file, more @ ..] = rest {
        match options.with(word.as_str(), file.as_str()) {
            Some(chosen) => options = chosen,
            None => return None,
        }
        rest = more;
    }
    match rest {
        [object] => {
            let object = object.as_str();
            if may_be_argument(object) {
                Some(Request::Report {
                    content,
                    options,
                    object,
                })
            } else {
                None
            }
        }
        _ => None,
    }
}

// The request of the last two words of `entail`.
fn entail_by<'a>(lattice: Option<&'a str>, file: &'a str, judgement: &'a str) -> Option<Request<'a>>
    ensures { MatchOption result (entail_by (option_copied lattice.entry) file.now judgement.now ≡ None)
        (λ request. entail_by (option_copied lattice.entry) file.now judgement.now ≡ Some (meaning request)) }
{
    if may_be_argument(file) && may_be_argument(judgement) {
        Some(Request::Entail {
            lattice,
            file,
            judgement,
        })
    } else {
        None
    }
}

// The request of the words of `entail`.
fn read_entail(words: &[String]) -> Option<Request<'_>>
    ensures { MatchOption result (entail_of (map string_bytes words.now) ≡ None)
        (λ request. entail_of (map string_bytes words.now) ≡ Some (meaning request)) }
{
    if words.len() == 2 {
        return entail_by(None, words[0].as_str(), words[1].as_str());
    }
    if words.len() != 4 {
        return None;
    }
    let lattice = words[1].as_str();
    if words[0].as_str() == "--lattice" && may_be_argument(lattice) {
        entail_by(Some(lattice), words[2].as_str(), words[3].as_str())
    } else {
        None
    }
}

/// What the words ask for, or `None` where they aren't of the grammar.
pub fn read_words(words: &[String]) -> Option<Request<'_>>
    ensures { MatchOption result (command_of (map string_bytes words.now) ≡ None)
        (λ request. command_of (map string_bytes words.now) ≡ Some (meaning request)) }
{
    let [word, rest @ ..] = words else {
        return None;
    };
    match word.as_str() {
        "constraints" => read_report(Content::Lines(Told::Constraints), rest),
        "schemes" => read_report(Content::Lines(Told::Schemes), rest),
        "sketches" => read_report(Content::Sketches, rest),
        "header" => read_report(Content::Header, rest),
        "entail" => read_entail(rest),
        _ => None,
    }
}
