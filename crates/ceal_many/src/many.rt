// Many sessions.

ghost use Rattle.std.specs.Prelude.{◌≡◌, [], bytes_eq, position, IfOk, OnErr};
ghost use Rattle.ceal_many.specs.Kept.{StandFor, AllMeet, Begins};
ghost use Rattle.ceal_many.specs.Replies.{Answers, AnswersFor, Leaves, LeavesFor};
ghost use Rattle.ceal_many.specs.Standing.{IsReady, IsAnswered, IsLeft};

use crate::answerer::{Answerer, Maker};
use crate::entry::{Entry, answer};
use crate::heading::{addressed, is_blank};
use ceal_base::no_memory::NoMemory;
use ceal_base::text::Text;
use std::alloc::Global;
use std::marker::Model;

/// The most sessions that there are.
const MOST: usize = 64;

/// Sessions by their names, and what makes them.
#[derive(Drop)]
pub struct Many<M: Maker> {
    alloc: Global,
    maker: M,
    sessions: Vec<Entry<M::Made>>,
}

impl<M: Maker> Model for Many<M> {
    ghost use Rattle.ceal_many.specs.Kept.{ManyState};

    ghost Value = { ManyState M M.Made };

    ghost view = { λ m. record { maker = m.maker; sessions = m.sessions.items } };
}

/// The place of the session of a name.
fn place_of<A>(sessions: &[Entry<A>], name: &[u8]) -> Option<usize>
    ensures { result ≡ position (λ entry. bytes_eq name.now entry.name) sessions.now }
{
    sessions.iter().position(|entry| name == entry.name.items())
}

/// Makes a session, which answers its first line. Without memory there is no such session.
fn begin<M: Maker>(
    alloc: Global,
    maker: &M,
    sessions: &mut Vec<Entry<M::Made>>,
    name: &[u8],
    line: &[u8],
) -> Result<Text, NoMemory>
    requires { M.Made.needs (M.Made.opening (M.beginning maker.now)) }
    ensures reply { IfOk result (λ text. Begins M.Made.stands M.Made.answers
        (M.Made.opening (M.beginning maker.now))
        name.now line.now sessions.old.items text sessions.new.items) }
    ensures left { OnErr result (sessions.new.items ≡ sessions.old.items) }
{
    let name = Text::from_slice(alloc, name)?;
    let answerer = maker.make()?;
    let mut entry = Entry { name, answerer };
    let text = answer(alloc, &mut entry, line)?;
    sessions.push(entry)?;
    Ok(text)
}

/// The reply to a line for the session of a name.
fn answer_for<M: Maker>(
    alloc: Global,
    maker: &M,
    sessions: &mut Vec<Entry<M::Made>>,
    name: &[u8],
    line: &[u8],
) -> Result<Text, NoMemory>
    requires sessions { IsReady (StandFor M.Made.stands) (AllMeet M.Made.needs) sessions.old.items }
    requires opening { M.Made.needs (M.Made.opening (M.beginning maker.now)) }
    ensures reply { IfOk result (λ text. IsAnswered (StandFor M.Made.stands)
        (AnswersFor M.Made.answers (M.Made.opening (M.beginning maker.now)) name.now)
        sessions.old.items line.now text sessions.new.items) }
    ensures left { OnErr result (IsLeft (StandFor M.Made.stands)
        (LeavesFor M.Made.answers M.Made.leaves name.now)
        sessions.old.items line.now sessions.new.items) }
{
    match place_of(sessions, name) {
        Some(at) => answer(alloc, &mut sessions[at], line),
        None => {
            if sessions.len() >= MOST {
                return Text::from_slice(alloc, b"refused C9: too many sessions\n");
            }
            begin(alloc, maker, sessions, name, line)
        }
    }
}

impl<M: Maker> Many<M> {
    /// No session yet. The maker makes one for each name that comes, up to 64.
    pub fn new(alloc: Global, maker: M) -> Result<Many<M>, NoMemory>
        ensures sessions { IfOk result (λ many. many.sessions ≡ []) }
        ensures maker { IfOk result (λ many. many.maker ≡ maker) }
    {
        Ok(Many {
            alloc,
            maker,
            sessions: Vec::new(alloc),
        })
    }

    /// The reply to a line, which has no line end: that of the session that the line names, with `NAME: ` before each
    /// of its lines. A session is made when its name first comes; where 64 are there, a line for another is refused as
    /// C9. After running out of memory the other sessions are as before. One that was not there is not there. One that
    /// was there is as its own command leaves it without memory, or has carried out the line and lost its reply; then
    /// the same line, given again, may be refused.
    pub fn command(&mut self, line: &[u8]) -> Result<Text, NoMemory>
        requires sessions { IsReady (StandFor M.Made.stands) (AllMeet M.Made.needs)
            self.old.sessions }
        requires opening { M.Made.needs (M.Made.opening (M.beginning self.old.maker)) }
        ensures reply { IfOk result (λ text. IsAnswered (StandFor M.Made.stands)
            (Answers M.Made.answers (M.Made.opening (M.beginning self.old.maker)))
            self.old.sessions line.now text self.new.sessions) }
        ensures left { OnErr result (IsLeft (StandFor M.Made.stands)
            (Leaves M.Made.answers M.Made.leaves)
            self.old.sessions line.now self.new.sessions) }
        ensures maker { self.new.maker ≡ self.old.maker }
    {
        if is_blank(line) {
            return Ok(Text::empty(self.alloc));
        }
        match addressed(line) {
            Some((name, line)) => {
                answer_for(self.alloc, &self.maker, &mut self.sessions, name, line)
            }
            None => Text::from_slice(self.alloc, b"refused C1: unreadable line\n"),
        }
    }
}
