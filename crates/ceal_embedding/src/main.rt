//! Small programs that embed CEAL as a library, as its users would write them: `order` keeps a session and speaks to
//! it by the lines of a script; `square` drives an engine by calls, with code compiled from a text; `countdown` makes a
//! list, which `walk` walks. `docs/LIBRARY.md` goes through them. With words the program carries out a job that is
//! measured.
#![tactic(auto)]

ghost use Rattle.ceal_embedding.specs.Sizes.{IsSize};

mod calls;
mod countdown;
mod inputs;
mod jobs;
mod measured;
mod order;
mod square;
mod start;
mod trouble;
mod turns;
mod walk;

use crate::jobs::Job;
use crate::measured::Task;
use crate::trouble::Trouble;
use ceal_base::word::Word;
use ceal_engine::engine::Engine;
use ceal_engine::phase::Phase;
use ceal_session::session::Session;
use std::{env, io};

fn main(rt: HostRuntime) -> io::Result<()> {
    let mut words = env::args(&rt)?;
    let _ = words.next();
    let words = words.collect::<Vec<String>>(rt.alloc())?;
    let done = match words.is_empty() {
        true => print_examples(&rt),
        false => print_measured(&rt, words.as_slice()),
    };
    match done {
        Ok(()) => Ok(()),
        Err(trouble) => println!(rt; "{trouble}"),
    }
}

/// Prints what the examples come to.
fn print_examples(rt: &HostRuntime) -> Result<(), Trouble> {
    let alloc = rt.alloc();
    let mut session = order::open(alloc)?;
    let told = print_totals(rt, &mut session);
    drop(session);
    told?;
    let mut engine = square::open(alloc)?;
    let told = print_squares(rt, &mut engine);
    drop(engine);
    told?;
    let mut engine = countdown::open(alloc)?;
    let told = print_sums(rt, &mut engine);
    drop(engine);
    told
}

/// Prints the total of the order, before and after a change of the price.
fn print_totals(rt: &HostRuntime, session: &mut Session) -> Result<(), Trouble> {
    print_reply(rt, session, b"get total")?;
    order::update(session, b"set price 15")?;
    print_reply(rt, session, b"get total")?;
    print_reply(rt, session, b"work")
}

/// Prints a question and its reply.
fn print_reply(rt: &HostRuntime, session: &mut Session, question: &[u8]) -> Result<(), Trouble> {
    let reply = order::ask(session, question)?;
    let printed = print_line(rt, question, reply.items());
    drop(reply);
    printed
}

fn print_line(rt: &HostRuntime, question: &[u8], reply: &[u8]) -> Result<(), Trouble> {
    let question = str::from_utf8(question).unwrap_or("?");
    let reply = str::from_utf8(reply).unwrap_or("?").trim_end();
    println!(rt; "{question}: {reply}")?;
    Ok(())
}

/// Prints the area of a square, before and after a change of its side.
fn print_squares(rt: &HostRuntime, engine: &mut Engine) -> Result<(), Trouble> {
    print_area(rt, engine)?;
    calls::update(engine, square::side(), Word::Num(-7))?;
    print_area(rt, engine)?;
    if engine.phase() == Phase::Finished {
        println!(rt; "work {}, steps {}", engine.work(), engine.steps())?;
    }
    Ok(())
}

fn print_area(rt: &HostRuntime, engine: &Engine) -> Result<(), Trouble> {
    match calls::content(engine, square::area())? {
        Word::Num(area) => println!(rt; "area: {area}")?,
        _ => println!(rt; "area: ?")?,
    }
    Ok(())
}

/// Prints the sum of a list that the program makes, before and after a change of its first number.
fn print_sums(rt: &HostRuntime, engine: &mut Engine) -> Result<(), Trouble> {
    print_sum(rt, engine)?;
    calls::update(engine, countdown::first(), Word::Num(6))?;
    print_sum(rt, engine)
}

fn print_sum(rt: &HostRuntime, engine: &Engine) -> Result<(), Trouble> {
    let sum = walk::sum(engine, countdown::list(), 1_000)?;
    println!(rt; "sum of the list: {sum}")?;
    Ok(())
}

/// Carries out the job that the words ask for, with its size and the number of its edits.
fn print_measured(rt: &HostRuntime, words: &[String]) -> Result<(), Trouble> {
    let [name, size, edits] = words else {
        return print_usage(rt);
    };
    let (Some(task), Some(size), Ok(edits)) = (
        measured::task_of(name),
        measured::size(size),
        edits.parse::<u32>(),
    ) else {
        return print_usage(rt);
    };
    match task {
        Task::Engine(job) => print_job(rt, job, size, edits),
        Task::Session => print_turns(rt, size, edits),
    }
}

fn print_usage(rt: &HostRuntime) -> Result<(), Trouble> {
    println!(rt; "usage: ceal_embedding [JOB SIZE EDITS]")?;
    Ok(())
}

/// Prints how many contents the edits of a job looked at, and the work of the last one.
fn print_job(rt: &HostRuntime, job: Job, size: u32, edits: u32) -> Result<(), Trouble>
    requires size { IsSize size }
{
    let mut engine = jobs::open(rt.alloc(), job, size)?;
    let before = measured::looked(&engine);
    let told = measured::edit_all(&mut engine, job, size, edits);
    let looks = measured::looked(&engine).saturating_sub(before);
    let work = if engine.phase() == Phase::Finished {
        engine.work()
    } else {
        0
    };
    drop(engine);
    told?;
    println!(rt; "looks {looks}, work {work}")?;
    Ok(())
}

/// Prints the work of the last turn of a session.
fn print_turns(rt: &HostRuntime, size: u32, turns: u32) -> Result<(), Trouble>
    requires size { IsSize size }
{
    let mut session = turns::open(rt.alloc(), size)?;
    let told = measured::turn_all(rt.alloc(), &mut session, size, turns);
    let printed = print_reply(rt, &mut session, b"work");
    drop(session);
    told?;
    printed
}
