//! The text of a workload, printed from its first line to its last.
ghost use Rattle.std.specs.Prelude.{◌≡◌, ℕ, ◌++◌, ◌<◌, ◌≤◌, ◌^◌, length, codes, OnOk, IfOk};
ghost use Rattle.std.specs.Fmt.{decimal};
ghost use Rattle.rand_pcg.specs.Lcg.{started, increment_of};
ghost use Rattle.rand_pcg.specs.Pcg.{multiplier_64};
ghost use Rattle.ipa_work.specs.Tournament.{tournament};
ghost use Rattle.ipa_work.specs.Workloads.{players, cups, replicas, sessions, each_to, with_elements, with_base, with_replicas, with_setup, begun, printed, next_draw, drawn, named, player, cup, of_player_and_cup, of_cup, of_players_and_cup, request_of, request, requests, session, first_sessions, workload};

use crate::tournament::TOURNAMENT;
use ipa_text::Page;
use rand_core::utils::NextWord;
use rand_pcg::Lcg64Xsh32;
use std::alloc::{AllocError, Global};

/// How many requests each session has.
const REQUESTS: u64 = 100;

/// The text of the workload of this number: the tournament with 4 to 16 players and 1 to 3 cups, 1 to 3 replicas, and 2
/// to 5 sessions of 100 requests each. It has at most 32768 bytes.
pub fn generate(alloc: Global, number: u64) -> Result<Vec<u8>, AllocError>
    ensures text { IfOk result (λ bytes. bytes.items ≡ workload number) }
    ensures short { IfOk result (λ bytes. length bytes.items ≤ 32768) }
{
    let mut page = Page::new(alloc);
    print_setup(&mut page, number)?;
    let mut printed = Workload {
        page,
        words: Lcg64Xsh32::new(number, 65),
    };
    printed.sessions(number)?;
    printed.page.bytes().to_vec(alloc)
}

/// How many players a workload has.
fn players(number: u64) -> u64
    ensures { result ≡ players number }
{
    4 + number % 13
}

/// How many cups.
fn cups(number: u64) -> u64
    ensures { result ≡ cups number }
{
    1 + number % 3
}

/// How many replicas.
fn replicas(number: u64) -> u64
    ensures { result ≡ replicas number }
{
    1 + number % 3
}

/// How many sessions.
fn sessions(number: u64) -> u64
    ensures { result ≡ sessions number }
{
    2 + number % 4
}

/// Prints the numbers from 1 to the count, each behind the letter.
fn names(page: &mut Page, count: u64, letter: &str) -> Result<(), AllocError>
    requires { count < 2 ^ 32 }
    ensures { OnOk result (page.new ≡ page.old ++ each_to count (λ k. letter.now ++ decimal k)) }
{
    for k in 0..count {
        page.text(letter)?;
        page.number(k + 1)?;
    }
    Ok(())
}

/// Prints the facts of the numbers from 1 to the count, each behind the front of its line.
fn facts(page: &mut Page, count: u64, front: &str) -> Result<(), AllocError>
    requires { count < 2 ^ 32 }
    ensures { OnOk result (page.new
        ≡ page.old ++ each_to count (λ k. (front.now ++ decimal k) ++ codes ")\n")) }
{
    for k in 0..count {
        page.text(front)?;
        page.number(k + 1)?;
        page.text(")\n")?;
    }
    Ok(())
}

/// Prints the names of players and cups.
fn print_elements(page: &mut Page, number: u64) -> Result<(), AllocError>
    ensures { OnOk result (page.new ≡ with_elements number page.old) }
{
    page.text("elem player")?;
    names(page, players(number), " p")?;
    page.text("\n")?;
    page.text("elem cup")?;
    names(page, cups(number), " k")?;
    page.text("\n")
}

/// Prints what is known at the start.
fn print_base(page: &mut Page, number: u64) -> Result<(), AllocError>
    ensures { OnOk result (page.new ≡ with_base number page.old) }
{
    facts(page, players(number), "base player(p")?;
    facts(page, cups(number), "base tourn(k")
}

/// Prints the tournament.
fn print_tournament(page: &mut Page) -> Result<(), AllocError>
    ensures { OnOk result (page.new ≡ page.old ++ tournament) }
{
    page.text(TOURNAMENT)
}

/// Prints the line of the replicas.
fn print_replicas(page: &mut Page, number: u64) -> Result<(), AllocError>
    ensures { OnOk result (page.new ≡ with_replicas number page.old) }
{
    page.text("replicas ")?;
    page.number(replicas(number))?;
    page.text("\n")
}

/// Prints what stands before the sessions.
fn print_setup(page: &mut Page, number: u64) -> Result<(), AllocError>
    ensures { OnOk result (page.new ≡ with_setup number page.old) }
{
    print_tournament(page)?;
    print_elements(page, number)?;
    print_base(page, number)?;
    print_replicas(page, number)
}

/// A text so far, and the generator of the numbers that are drawn for it. What it holds after want of memory is not
/// looked at.
#[derive(Drop)]
struct Workload {
    page: Page,
    words: Lcg64Xsh32,
}

impl Workload {
    /// Prints more.
    fn text(&mut self, more: &str) -> Result<(), AllocError>
        ensures { OnOk result (self.new ≡ printed more.now self.old) }
    {
        self.page.text(more)
    }

    /// Draws a number.
    fn draw(&mut self) -> u32
        ensures number { result ≡ next_draw self.old }
        ensures rest { self.new ≡ drawn self.old }
    {
        self.words.next_word()
    }

    /// Draws and prints the name of one of so many.
    fn named(&mut self, letter: &str, count: u64) -> Result<(), AllocError>
        requires { 0 < count }
        ensures { OnOk result (self.new ≡ named letter.now count self.old) }
    {
        let number = self.draw();
        self.text(letter)?;
        self.page.number(u64::from(number) % count + 1)
    }

    /// Draws and prints the name of a player.
    fn player(&mut self, number: u64) -> Result<(), AllocError>
        ensures { OnOk result (self.new ≡ player number self.old) }
    {
        self.named("p", players(number))
    }

    /// Draws and prints the name of a cup.
    fn cup(&mut self, number: u64) -> Result<(), AllocError>
        ensures { OnOk result (self.new ≡ cup number self.old) }
    {
        self.named("k", cups(number))
    }

    /// Prints a request on a player and a cup.
    fn of_player_and_cup(&mut self, front: &str, number: u64) -> Result<(), AllocError>
        ensures { OnOk result (self.new ≡ of_player_and_cup front.now number self.old) }
    {
        self.text(front)?;
        self.player(number)?;
        self.text(",")?;
        self.cup(number)?;
        self.text(")\n")
    }

    /// Prints a request on a cup.
    fn of_cup(&mut self, front: &str, number: u64) -> Result<(), AllocError>
        ensures { OnOk result (self.new ≡ of_cup front.now number self.old) }
    {
        self.text(front)?;
        self.cup(number)?;
        self.text(")\n")
    }

    /// Prints a request on two players and a cup.
    fn of_players_and_cup(&mut self, front: &str, number: u64) -> Result<(), AllocError>
        ensures { OnOk result (self.new ≡ of_players_and_cup front.now number self.old) }
    {
        self.text(front)?;
        self.player(number)?;
        self.of_player_and_cup(",", number)
    }

    /// Prints a request of this kind, from 0 to 9.
    fn request_of(&mut self, kind: u32, number: u64) -> Result<(), AllocError>
        ensures { OnOk result (self.new ≡ request_of kind number self.old) }
    {
        if kind < 4 {
            self.of_player_and_cup("do enroll(", number)
        } else if kind == 4 {
            self.of_player_and_cup("do disenroll(", number)
        } else if kind == 5 {
            self.of_cup("do begin(", number)
        } else if kind == 6 {
            self.of_cup("do finish(", number)
        } else if kind == 7 {
            self.of_players_and_cup("do match(", number)
        } else {
            self.of_cup("show enrolled(*,", number)
        }
    }

    /// Prints a request whose kind is drawn.
    fn request(&mut self, number: u64) -> Result<(), AllocError>
        ensures { OnOk result (self.new ≡ request number self.old) }
    {
        let kind = self.draw() % 10;
        self.request_of(kind, number)
    }

    /// Prints the requests of a session.
    fn requests(&mut self, number: u64) -> Result<(), AllocError>
        ensures { OnOk result (self.new ≡ requests 100 number self.old) }
    {
        for _ in 0..REQUESTS {
            self.request(number)?;
        }
        Ok(())
    }

    /// Prints session `place`, counted from 0.
    fn session(&mut self, number: u64, place: u64) -> Result<(), AllocError>
        ensures { OnOk result (self.new ≡ session number place self.old) }
    {
        self.text("session ")?;
        self.page.number(1 + place % replicas(number))?;
        self.text("\n")?;
        self.requests(number)
    }

    /// Prints all sessions.
    fn sessions(&mut self, number: u64) -> Result<(), AllocError>
        ensures { OnOk result (self.new ≡ first_sessions (sessions number) number self.old) }
    {
        for place in 0..sessions(number) {
            self.session(number, place)?;
        }
        Ok(())
    }
}

#[cfg(test)]
mod tests {
    use super::generate;
    use std::test::Fail;

    /// How many line feeds the bytes have.
    fn lines_of(bytes: &[u8]) -> usize {
        bytes.iter().filter(|byte| **byte == b'\n').count()
    }

    #[test]
    fn generates_two_workloads(rt: HostRuntime) -> Result<(), Fail> {
        for (number, lines) in [(0, 270), (5, 378)] {
            let text = generate(rt.alloc(), number)?;
            assert!(rt; lines_of(&text) == lines);
        }
        Ok(())
    }
}
