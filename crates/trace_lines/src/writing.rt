//! Writing the lines of a trace, each without its line feed.

ghost use Rattle.std.specs.Prelude.{◌≡◌, ◌++◌, codes, decimal, string_bytes, IfOk, OnOk};
ghost use Rattle.trace_lines.specs.Texts.{change_line_text, change_text, outcome_text, profile_line_text, query_line_text, route_line_text, routers_line_text, service_line_text, verdict_text};
ghost use Rattle.trace_lines.specs.TextViews.{given_answer, numbered};

use crate::answer_words::AnswerWords;
use crate::draft::Draft;
use crate::subjects::{write_change, write_facts, write_query};
use crate::told::{write_answer, write_outcome, write_verdict, write_whole_outcome};
use match_rules::Facts;
use names::WellKnown;
use owner_queues::Profile;
use seq_bus_core::{Change, NumberedOutcome, Outcome, Query, Verdict};
use std::alloc::{AllocError, Global};
use std::marker::Model;

/// The first line of a trace: the profile of its queues.
pub fn profile_line(profile: Profile) -> &'static str
    ensures { result.now ≡ profile_line_text profile }
{
    match profile {
        Profile::One => "dbus-trace 1",
        Profile::Two => "dbus-trace 2",
    }
}

/// The second line of a trace: the number of routers.
pub fn routers_line(alloc: Global, routers: u8) -> Result<String, AllocError>
    ensures { IfOk result (λ line. string_bytes line ≡ routers_line_text routers) }
{
    let mut line = Draft::new(alloc);
    line.push("routers ")?;
    line.push_number(u64::from(routers))?;
    Ok(line.into_string())
}

/// A line of a trace's head behind the second: a service.
pub fn service_line(alloc: Global, name: &WellKnown) -> Result<String, AllocError>
    ensures { IfOk result (λ line. string_bytes line ≡ service_line_text name.now) }
{
    let mut line = Draft::new(alloc);
    line.push("service ")?;
    line.push(name.as_str())?;
    Ok(line.into_string())
}

/// Writes a place and a seat.
fn write_where(line: &mut Draft, place: u64, seat: u64) -> Result<(), AllocError>
    ensures { OnOk result (line.new
        ≡ line.old ++ decimal place ++ codes " " ++ decimal seat ++ codes " ") }
{
    line.push_number(place)?;
    line.push(" ")?;
    line.push_number(seat)?;
    line.push(" ")
}

/// The words of a change. They are written before the change is made, since it is used up then.
#[derive(Debug, Drop)]
pub struct ChangeWords {
    text: String,
}

impl Model for ChangeWords {
    ghost use Rattle.std.specs.Prelude.{string_bytes};
    ghost use Rattle.names.specs.Texts.{Text};

    ghost Value = { Text };

    ghost view = { λ words. string_bytes words.text };
}

impl ChangeWords {
    /// The words of a change.
    pub fn of(alloc: Global, change: &Change) -> Result<ChangeWords, AllocError>
        ensures { IfOk result (λ words. words ≡ change_text change.now) }
    {
        let mut words = Draft::new(alloc);
        write_change(&mut words, change)?;
        Ok(ChangeWords {
            text: words.into_string(),
        })
    }

    /// Writes the line of the change, once it is made: its place in the history, its seat, its
    /// number among the changes of that seat, and what it was told.
    pub fn write_line(
        &self,
        line: &mut Draft,
        place: u64,
        seat: u64,
        number: u64,
        outcome: &NumberedOutcome,
    ) -> Result<(), AllocError>
        ensures { OnOk result (line.new ≡ line.old
            ++ change_line_text place seat number self.now outcome.now) }
    {
        self.write_front(line, place, seat, number)?;
        write_outcome(line, outcome)
    }

    /// The same where the tickets that it settled are at hand with what they carry.
    pub fn write_whole_line(
        &self,
        line: &mut Draft,
        place: u64,
        seat: u64,
        number: u64,
        outcome: &Outcome,
    ) -> Result<(), AllocError>
        ensures { OnOk result (line.new ≡ line.old
            ++ change_line_text place seat number self.now (numbered outcome.now)) }
    {
        self.write_front(line, place, seat, number)?;
        write_whole_outcome(line, outcome)
    }

    /// Writes the line up to what the change was told.
    fn write_front(
        &self,
        line: &mut Draft,
        place: u64,
        seat: u64,
        number: u64,
    ) -> Result<(), AllocError>
        ensures { OnOk result (line.new ≡ line.old ++ codes "c " ++ decimal place ++ codes " "
            ++ decimal seat ++ codes " " ++ decimal number ++ codes " "
            ++ self.now ++ codes " => ") }
    {
        line.push("c ")?;
        write_where(line, place, seat)?;
        line.push_number(number)?;
        line.push(" ")?;
        line.push(self.text.as_str())?;
        line.push(" => ")
    }
}

/// What a change is told, as it stands behind the arrow of its line.
pub fn outcome_text(alloc: Global, outcome: &NumberedOutcome) -> Result<String, AllocError>
    ensures { IfOk result (λ text. string_bytes text ≡ outcome_text outcome.now) }
{
    let mut text = Draft::new(alloc);
    write_outcome(&mut text, outcome)?;
    Ok(text.into_string())
}

/// Where a message goes, as it stands behind the arrow of its line.
pub fn verdict_text(alloc: Global, verdict: &Verdict) -> Result<String, AllocError>
    ensures { IfOk result (λ text. string_bytes text ≡ verdict_text verdict.now) }
{
    let mut text = Draft::new(alloc);
    write_verdict(&mut text, verdict)?;
    Ok(text.into_string())
}

/// Writes the line of a query, which saw the first changes up to a place: its seat and what it was
/// answered.
pub fn write_query_line(
    line: &mut Draft,
    place: u64,
    seat: u64,
    query: &Query,
    answer: Option<AnswerWords<'_>>,
) -> Result<(), AllocError>
    ensures { OnOk result (line.new ≡ line.old
        ++ query_line_text place seat query.now (given_answer answer.entry)) }
{
    line.push("q ")?;
    write_where(line, place, seat)?;
    write_query(line, query)?;
    line.push(" => ")?;
    write_answer(line, answer)
}

/// Writes the line of a message from a connection, 0 being the bus, that was routed once the first
/// changes up to a place were seen: its seat and where the message goes. The sender that the facts
/// name is not looked at.
pub fn write_route_line(
    line: &mut Draft,
    place: u64,
    seat: u64,
    from: u64,
    facts: &Facts<'_>,
    verdict: &Verdict,
) -> Result<(), AllocError>
    ensures { OnOk result (line.new ≡ line.old
        ++ route_line_text place seat (record facts.now { sender = from }) verdict.now) }
{
    line.push("m ")?;
    write_where(line, place, seat)?;
    write_facts(line, from, facts)?;
    line.push(" => ")?;
    write_verdict(line, verdict)
}
