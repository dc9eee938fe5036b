use crate::shown::Shown;
use crate::wanted::Wanted;
use std::fmt;

/// What is wrong with a line of a script.
#[derive(Clone, Copy)]
pub enum Trouble<'a> {
    /// Its last byte is a carriage return.
    CarriageReturn,
    /// It begins with the bytes by which some editors mark UTF-8.
    Mark,
    NotText,
    /// A script has no comments.
    Comment,
    /// Words are not parted by one space each.
    Spaces,
    /// The word is not `point`, which stands first.
    NoPoint(&'a str),
    /// A second `point`.
    SecondPoint,
    /// A command without its side.
    NoSide(&'a str),
    /// The word is no command, but another one is near.
    NoCommand(&'a str, &'static str),
    /// The word is no command.
    Unknown(&'a str),
    /// The command is not for `serve`, for this reason.
    NotServed(&'a str, &'static str),
    /// The word is not what is wanted.
    Wrong(&'a str, Wanted),
    /// Nothing is there of what is wanted behind the word.
    Missing(Wanted, &'a str),
    /// The word is one too many.
    TooMany(&'a str),
}

impl fmt::Display for Trouble<'_> {
    fn fmt<W: fmt::Write>(&self, f: &mut fmt::Formatter<W>) -> fmt::Result {
        match self {
            Trouble::CarriageReturn => {
                f.write_str(" ends with a carriage return (a file from Windows?)")
            }
            Trouble::Mark => f.write_str(" begins with a byte order mark (a file from Windows?)"),
            Trouble::NotText => f.write_str(" is no UTF-8"),
            Trouble::Comment => f.write_str(" is a comment, which a script has not"),
            Trouble::Spaces => {
                f.write_str(": words are parted by one space, and none stands at either end")
            }
            Trouble::NoPoint(word) => {
                write!(
                    f,
                    ": '{}' is found, and 'point CODE' is wanted first",
                    Shown { word }
                )
            }
            Trouble::SecondPoint => f.write_str(": 'point' is for the first line alone"),
            Trouble::NoSide(word) => {
                write!(f, ": a side (I or M) is wanted before '{}'", Shown { word })
            }
            Trouble::NoCommand(word, near) => {
                write!(f, ": '{}' is no command; {near}?", Shown { word })
            }
            Trouble::Unknown(word) => write!(
                f,
                ": '{}' is no command; contract, notice, submit, close, resend, halt, save, deliver, restart or carry",
                Shown { word }
            ),
            Trouble::NotServed(word, reason) => {
                write!(f, ": '{}' is not for serve, {reason}", Shown { word })
            }
            Trouble::Wrong(word, wanted) => write!(f, ": '{}' is no {wanted}", Shown { word }),
            Trouble::Missing(wanted, word) => {
                write!(f, ": a {wanted} is wanted behind '{}'", Shown { word })
            }
            Trouble::TooMany(word) => write!(f, ": '{}' is one word too many", Shown { word }),
        }
    }
}
