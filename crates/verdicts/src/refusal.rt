// What a job or a copy is turned back with.
ghost use Rattle.std.specs.Prelude.{◌≡◌, Some};
ghost use Rattle.verdicts.specs.Refusal.{number_of, Decodes};
ghost use Rattle.verdicts.specs.Sentence.{sentence_of};

use std::error::Error;
use std::fmt;

// The conditions of document 01 and of document 02, each with its number. 7 and 8 are never given again.
#[derive(Clone, Copy, Debug, PartialEq, Eq)]
pub enum Refusal {
    // A text is empty or over its byte limit.
    OutOfBytes = 1,
    // A line after the first breaks its layout, or the last line feed is missing.
    BrokenLayout = 2,
    // A first line, or a name in it, is wrong, or it has over 16 names.
    WrongFirstLine = 3,
    // There is no state, there are over 512, or their numbers are out of turn.
    WrongStates = 4,
    // There are over 4,096 lines of moves.
    ManyMoves = 5,
    // A move names a state that the labels lack.
    StrangeState = 6,
    // A rate is 0, or the rates out of a state are over 64,000,000.
    WrongRate = 9,
    // The formula breaks the grammar.
    NoFormula = 10,
    // The formula has over 64 nodes or is over 16 deep.
    LargeFormula = 11,
    // The formula has a label name that the labels lack.
    StrangeLabel = 12,
    // A threshold is over 1,000,000,000 or hours are over 8,760.
    WrongBound = 13,
    // The uniformisation rate times the hours of an until, or of one of its phases, is over 64,000,000.
    HighLoad = 14,
    // A lent buffer is too short.
    ShortBuffer = 15,
    // The first of an until's two times exceeds the second.
    WrongTimes = 16,
    // The buffer for the copy is too short.
    ShortCopy = 17,
}

impl From<Refusal> for u64 {
    ghost from_gives = { λ refusal number. number ≡ number_of refusal };

    // The number that a refusal prints.
    fn from(refusal: Refusal) -> u64 {
        refusal as u64
    }
}

// A number that no refusal has.
#[derive(Clone, Copy, Debug, PartialEq, Eq)]
pub struct StrangeNumber(pub u64);

impl TryFrom<u64> for Refusal {
    type Error = StrangeNumber;

    ghost try_from_gives = { Decodes };

    // The refusal that prints this number.
    fn try_from(number: u64) -> Result<Refusal, StrangeNumber> {
        match number {
            1 => Ok(Refusal::OutOfBytes),
            2 => Ok(Refusal::BrokenLayout),
            3 => Ok(Refusal::WrongFirstLine),
            4 => Ok(Refusal::WrongStates),
            5 => Ok(Refusal::ManyMoves),
            6 => Ok(Refusal::StrangeState),
            9 => Ok(Refusal::WrongRate),
            10 => Ok(Refusal::NoFormula),
            11 => Ok(Refusal::LargeFormula),
            12 => Ok(Refusal::StrangeLabel),
            13 => Ok(Refusal::WrongBound),
            14 => Ok(Refusal::HighLoad),
            15 => Ok(Refusal::ShortBuffer),
            16 => Ok(Refusal::WrongTimes),
            17 => Ok(Refusal::ShortCopy),
            _ => Err(StrangeNumber(number)),
        }
    }
}

impl fmt::Display for Refusal {
    ghost output = { λ refusal. Some (sentence_of refusal) };

    // The sentence that a program says of a refusal, behind `refused, since `.
    fn fmt<W: fmt::Write>(&self, f: &mut fmt::Formatter<W>) -> fmt::Result {
        f.write_str(match self {
            Refusal::OutOfBytes =>
                "a text is empty (or its file cannot be opened) or over its byte limit.",
            Refusal::BrokenLayout =>
                "a line after the first breaks its layout, or the last line feed is missing, in moves.txt or labels.txt.",
            Refusal::WrongFirstLine =>
                "the first line of moves.txt or labels.txt, or a name in it, is wrong, or it has over 16 names.",
            Refusal::WrongStates =>
                "labels.txt has no state, over 512 states, or state numbers out of turn.",
            Refusal::ManyMoves => "moves.txt has over 4,096 lines of moves.",
            Refusal::StrangeState => "a move names a state that labels.txt lacks.",
            Refusal::WrongRate => "a rate is 0, or the rates out of a state are over 64,000,000.",
            Refusal::NoFormula => "formula.txt breaks the grammar.",
            Refusal::LargeFormula => "the formula has over 64 nodes or is over 16 deep.",
            Refusal::StrangeLabel =>
                "the formula has a label name that the first line of labels.txt lacks.",
            Refusal::WrongBound => "a threshold is over 1,000,000,000 or hours are over 8,760.",
            Refusal::HighLoad =>
                "the greatest exit rate (to other states) times the hours of an until, or of one of its two phases, is over 64,000,000.",
            Refusal::ShortBuffer => "a lent buffer is too short.",
            Refusal::WrongTimes => "the first of an until's two times exceeds the second.",
            Refusal::ShortCopy => "the buffer for the copy is too short.",
        })
    }
}

impl Error for Refusal {}
