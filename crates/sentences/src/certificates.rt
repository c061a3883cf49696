//! What is said of a certificate that is refused.

use crate::line::{End, number, text};
use serde_json::Value;
use std::alloc::{AllocError, Global};
use std::fmt;

/// What is wrong with a certificate, and where.
pub(crate) fn refused_certificate(
    alloc: Global,
    end: &End<'_>,
    line: &Value,
) -> Result<String, AllocError> {
    let name = end.last_word();
    match text(line, "why") {
        "" => format!(in alloc;
            "{name}: no certificate has the byte at {byte}; is it the file that `plan` or `run` wrote as CERT (docs/CERTIFICATE.md)?",
            byte = number(line, "byte")
        ),
        why => format!(in alloc;
            "{name}: the certificate doesn't hold for {of}: {what} ({why}{place}); it is of another one, or was changed \
             (docs/CERTIFICATE.md)",
            of = end.word(1),
            what = fault(why),
            place = Node {
                of: why,
                number: number(line, "node")
            }
        ),
    }
}

/// The node of a fault, printed where the fault is one of a node.
#[derive(Clone, Copy)]
struct Node<'a> {
    of: &'a str,
    number: u64,
}

impl fmt::Display for Node<'_> {
    fn fmt<W: fmt::Write>(&self, f: &mut fmt::Formatter<W>) -> fmt::Result {
        match self.of {
            "ChoiceLength" | "ChoiceVersion" | "ChoiceMissed" | "WrongDistortion" | "BoundHigh" => {
                Ok(())
            }
            _ => {
                let number = self.number;
                write!(f, " at node {number}")
            }
        }
    }
}

/// A fault of a certificate, in words.
fn fault(why: &str) -> &'static str {
    match why {
        "ChoiceLength" => "it doesn't choose for each picture",
        "ChoiceVersion" => "it chooses a version that a picture doesn't have",
        "ChoiceMissed" => "its choice isn't scheduled",
        "WrongDistortion" => "its distortion isn't that of its choice",
        "NoNode" => "a node is missing",
        "UnitRange" => "it branches on a picture that isn't there",
        "UnitFixed" => "it branches twice on a picture",
        "DueOrder" => "multipliers or windows aren't in order",
        "WindowEmpty" => "a window has no time",
        "ProgramRange" => "a window counts the buffer of a program that isn't there",
        "LambdaLimit" => "a multiplier is too great",
        "RunOpen" => "it tries a choice that leaves pictures open",
        "RunWrong" => "a choice that it tried isn't what it says",
        "ExtraNode" => "a node is left over",
        "BoundHigh" => "its bound is above what it shows",
        _ => "it has a fault",
    }
}
