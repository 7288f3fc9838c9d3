//! Answers to queries, as a line tells them.

/// What a query is answered, in the words of a line.
#[derive(Clone, Copy, Debug)]
pub enum AnswerWords<'a> {
    OneName(&'a str),
    HasOwner(bool),
    NameList(&'a [&'a str]),
}
