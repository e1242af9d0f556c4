//! The input of a demo, which is made from its size.

ghost use Rattle.std.specs.Prelude.{◌≡◌, ◌+◌, ◌<◌, ◌^◌, ◌++◌, List, ℕ, IfOk, OnOk, codes, string_bytes};
ghost use Rattle.std.specs.List.{concat};
ghost use Rattle.dbn_top.specs.Demos.{tickets, employee_line, for_each, jobs, desk_front, demo_net, demo_commands, verb_for, of_ticket, command_for, drawn, line_at, asked_after, next_line, on};

use dbn_io::Bytes;
use std::alloc::{AllocError, Global};
use std::fmt::Write;

// The net of tickets: employees, jobs to be opened, and desks.
const TICKETS_NET: &str = "\
(relation Emp (e text))
(relation Ticket (t id) (d text))
(relation Resp (t id) (e text))
(key Ticket t)
(key Resp t)
(foreign Resp (t) Ticket (t))
(foreign Resp (e) Emp (e))
(always busy (forall ((t id) (u id) (e text)) (implies (and (Resp t e) (Resp u e)) (= t u))))
(query idle ((e text)) (and (Emp e) (not (exists ((t id)) (Resp t e)))))
(action register ((t id) (d text)) (delete) (add (Ticket t d)))
(action give ((t id) (e text)) (delete) (add (Resp t e)))
(action finish ((t id) (e text)) (delete (Resp t e)) (add))
(place New text)
(place Wait id)
(place Desk text)
(place Work id text)
(place Bad id text)
(view Idle idle)
(transition open (in New (1 d)) (fresh n) (do register n d) (out Wait (1 n)))
(transition assign (in Wait (1 t)) (read Idle e) (do give t e) (out Work (1 t e)) (back Wait (1 t)))
(transition take (in Wait (1 t)) (in Desk (1 e)) (do give t e) (out Work (1 t e)) (back Bad (1 t e)))
(transition close (in Work (1 t e)) (do finish t e))
";

// How many employees there are.
const EMPLOYEES: u64 = 10;

/// The net and the commands of a demo.
#[derive(Drop)]
pub struct DemoInput {
    /// The canonical text of the net with its start.
    pub net: Bytes,
    /// The commands, each with a line feed.
    pub commands: Bytes,
}

// What the commands are made from: a number of 64 bits, and how many tickets were asked for so far.
#[derive(Drop)]
struct Generator {
    number: u64,
    asked: u64,
}

fn tickets() -> &'static str
    ensures { result.now ≡ concat tickets }
{
    TICKETS_NET
}

fn add_employee(text: &mut String, front: &str, n: u64) -> Result<(), AllocError>
    ensures { OnOk result (string_bytes text.new ≡ string_bytes text.old ++ employee_line front.now n) }
{
    writeln!(text, "{front}\"e{n}\")")?;
    Ok(())
}

// A line for each employee, from e0 to e9, with the same front.
fn add_for_each(text: &mut String, front: &str) -> Result<(), AllocError>
    ensures { OnOk result (string_bytes text.new ≡ string_bytes text.old ++ for_each front.now 10) }
{
    for n in 0..EMPLOYEES {
        add_employee(text, front, n)?;
    }
    Ok(())
}

fn jobs(alloc: Global, size: u64) -> Result<String, AllocError>
    ensures { IfOk result (λ line. string_bytes line ≡ jobs size) }
{
    let line = format!(in alloc; "(token New {size} \"job\")\n")?;
    Ok(line)
}

fn desk_front(alloc: Global, size: u64) -> Result<String, AllocError>
    ensures { IfOk result (λ front. string_bytes front ≡ desk_front size) }
{
    let front = format!(in alloc; "(token Desk {size} ")?;
    Ok(front)
}

fn net_text(alloc: Global, size: u64) -> Result<String, AllocError>
    ensures { IfOk result (λ text. string_bytes text ≡ demo_net size) }
{
    let mut text = String::new(alloc);
    let jobs = jobs(alloc, size)?;
    let front = desk_front(alloc, size)?;
    text.push_str(tickets())?;
    add_for_each(&mut text, "(fact Emp ")?;
    text.push_str(jobs.as_str())?;
    add_for_each(&mut text, front.as_str())?;
    Ok(text)
}

fn verb_for(kind: u64) -> &'static str
    ensures { result.now ≡ verb_for kind }
{
    match kind {
        1 => "assign",
        2 => "take",
        _ => "close",
    }
}

fn of_ticket(alloc: Global, verb: &str, ticket: u64) -> Result<String, AllocError>
    ensures { IfOk result (λ line. string_bytes line ≡ of_ticket verb.now ticket) }
{
    let line = format!(in alloc; "fire {verb} #{ticket} \"e{}\"\n", ticket % EMPLOYEES)?;
    Ok(line)
}

fn command_for(alloc: Global, kind: u64, ticket: u64) -> Result<String, AllocError>
    ensures { IfOk result (λ line. string_bytes line ≡ command_for kind ticket) }
{
    if kind == 0 {
        return String::from_str(alloc, "fire open \"job\"\n");
    }
    let line = of_ticket(alloc, verb_for(kind), ticket)?;
    Ok(line)
}

// The next number of 64 bits.
fn drawn(number: u64) -> u64
    ensures { result ≡ drawn number }
{
    number
        .wrapping_mul(6_364_136_223_846_793_005)
        .wrapping_add(1_442_695_040_888_963_407)
}

// The command for a number, where so many tickets were asked for before.
#[tactic(auto, unfolding(crate::specs::Demos::line_at))]
fn line_at(alloc: Global, number: u64, asked: u64) -> Result<String, AllocError>
    ensures { IfOk result (λ line. string_bytes line ≡ line_at number asked) }
{
    let choice = number >> 33;
    command_for(alloc, choice % 4, asked.saturating_sub(choice / 4 % 16))
}

// How many tickets were asked for behind that command.
#[tactic(auto, unfolding(crate::specs::Demos::asked_after))]
fn asked_after(number: u64, asked: u64) -> u64
    requires { asked + 1 < 2 ^ 64 }
    ensures { result ≡ asked_after number asked }
{
    if (number >> 33) % 4 == 0 {
        asked + 1
    } else {
        asked
    }
}

impl Generator {
    // The next command; the generator goes on.
    fn next_line(&mut self, alloc: Global) -> Result<String, AllocError>
        requires { self.old.asked + 1 < 2 ^ 64 }
        ensures line { IfOk result (λ line. string_bytes line ≡ next_line self.old) }
        ensures on { self.new ≡ on self.old }
    {
        self.number = drawn(self.number);
        let line = line_at(alloc, self.number, self.asked);
        self.asked = asked_after(self.number, self.asked);
        line
    }
}

#[tactic(auto, using(crate::proofs::Generators::so_far_none))]
fn commands_text(alloc: Global, size: u64) -> Result<String, AllocError>
    ensures { IfOk result (λ text. string_bytes text ≡ demo_commands size) }
{
    let mut text = String::new(alloc);
    let mut generator = Generator {
        number: size,
        asked: 0,
    };
    for _n in 0..size {
        let line = generator.next_line(alloc)?;
        text.push_str(line.as_str())?;
    }
    Ok(text)
}

/// The net and the commands of the demo of this size, which are made from the size alone. An error is want of memory.
pub fn demo_input(alloc: Global, size: u64) -> Result<DemoInput, AllocError>
    ensures net { IfOk result (λ input. input.net ≡ demo_net size) }
    ensures commands { IfOk result (λ input. input.commands ≡ demo_commands size) }
{
    let net = net_text(alloc, size)?;
    let commands = commands_text(alloc, size)?;
    Ok(DemoInput {
        net: Bytes::from_vec(net.into_bytes()),
        commands: Bytes::from_vec(commands.into_bytes()),
    })
}
