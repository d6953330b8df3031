//! The router of a script, played.
use crate::area_script::{ScriptArea, bytes_of, root_of};
use crate::beginning::{first_of, router_of};
use crate::fault::ScriptError;
use crate::line::{Happening, ScriptLine, Shown, line_of};
use crate::telling::{
    push_announced, push_answer, push_candidates, push_count, push_database, push_lsa,
    push_neighbors, push_numbers, push_offered, push_owed, push_table,
};
use flood::{Config, ConfigError, Core, Event};
use hooks::{Asker, VetoAnswers, programs};
use keyed_map::Pages;
use std::alloc::{AllocError, Global};
use std::io::{self, BufRead};
use std::mem::replace;
use std::sync::Wait;
use words::{External, Route, Second, Sequence};

// The router, who answers its questions, how many walks it had made when that was last looked at,
// and what was printed so far.
struct Stage {
    alloc: Global,
    core: Core,
    asker: Asker,
    walks: u64,
    text: String,
}

fn packet(alloc: Global, interface: u16, digits: &str) -> Result<Option<Event>, AllocError> {
    match bytes_of(alloc, digits)? {
        Some(bytes) => Ok(Some(Event::Packet(interface, Sequence::from_vec(bytes)))),
        None => Ok(None),
    }
}

// The destination is announced as it is configured.
fn announcement(
    asker: &mut Asker,
    moment: Second,
    external: &External,
) -> Result<Option<Event>, AllocError> {
    match asker.configured(external, moment) {
        Some((tag, price)) => Ok(Some(Event::Redistribute(tag, price))),
        None => Err(AllocError),
    }
}

// An Install with no answers.
fn nothing_installed(alloc: Global) -> Event {
    Event::Install(VetoAnswers::none(alloc))
}

// An Install in which each of the candidates is let in.
fn all_let_in(
    asker: &mut Asker,
    moment: Second,
    candidates: Pages<Route>,
) -> Result<Option<Event>, AllocError> {
    match asker.all_let_in(candidates, moment) {
        Some(answers) => Ok(Some(Event::Install(answers))),
        None => Err(AllocError),
    }
}

impl Stage {
    // One whose router's questions are asked by this asker.
    fn new(alloc: Global, asker: Option<Asker>, config: &Config) -> Result<Stage, ScriptError> {
        let Some(asker) = asker else {
            return Err(ScriptError::Memory);
        };
        match Core::new(alloc, config) {
            Ok(core) => Ok(Stage {
                alloc,
                core,
                asker,
                walks: 0,
                text: String::new(alloc),
            }),
            Err(ConfigError::Interface) => Err(ScriptError::Line(1)),
            Err(ConfigError::Memory) => Err(ScriptError::Memory),
        }
    }

    fn install_all(&mut self, moment: Second) -> Result<Option<Event>, AllocError> {
        let candidates = self.core.candidates()?;
        all_let_in(&mut self.asker, moment, candidates)
    }

    // The event, a packet's with these hex digits; `None` if they are none.
    fn event(
        &mut self,
        moment: Second,
        happening: Happening,
        digits: &str,
    ) -> Result<Option<Event>, AllocError> {
        match happening {
            Happening::Tick => Ok(Some(Event::Tick)),
            Happening::Packet(interface) => packet(self.alloc, interface, digits),
            Happening::Announce(external) => announcement(&mut self.asker, moment, &external),
            Happening::Withdraw(prefix) => Ok(Some(Event::Withdraw(prefix))),
            Happening::Down(interface) => Ok(Some(Event::LinkDown(interface))),
            Happening::InstallAll => self.install_all(moment),
            Happening::InstallNothing => Ok(Some(nothing_installed(self.alloc))),
        }
    }

    fn step(&mut self, moment: Second, event: &Event) -> Result<(), AllocError> {
        let answer = self.core.step(moment, event);
        push_answer(&mut self.text, moment, &answer)
    }

    // Whether it happens: a packet's digits may be none.
    fn happens(
        &mut self,
        moment: Second,
        happening: Happening,
        digits: &str,
    ) -> Result<bool, AllocError> {
        match self.event(moment, happening, digits)? {
            Some(event) => {
                self.step(moment, &event)?;
                Ok(true)
            }
            None => Ok(false),
        }
    }

    fn show_stale(&mut self) -> Result<(), AllocError> {
        let told = if self.core.stale()? {
            "stale yes\n"
        } else {
            "stale no\n"
        };
        self.text.push_str(told)
    }

    fn show_walks(&mut self) -> Result<(), AllocError> {
        let before = self.core.walks();
        let _stale = self.core.stale()?;
        let in_events = before.wrapping_sub(self.walks);
        self.walks = self.core.walks();
        let now = self.walks.wrapping_sub(before);
        push_numbers(&mut self.text, "walks {} and {}\n", &[in_events, now])
    }

    fn show(&mut self, shown: Shown) -> Result<(), AllocError> {
        match shown {
            Shown::Neighbors => push_neighbors(&mut self.text, self.alloc, &self.core),
            Shown::Owed => push_owed(&mut self.text, &self.core),
            Shown::Table => push_table(&mut self.text, self.alloc, &self.core),
            Shown::Candidates => push_candidates(&mut self.text, &self.core),
            Shown::Offered => push_offered(&mut self.text, &self.core),
            Shown::Stale => self.show_stale(),
            Shown::Walks => self.show_walks(),
            Shown::Database => push_database(&mut self.text, self.alloc, &self.core),
            Shown::Lsas => push_count(&mut self.text, &self.core),
            Shown::Lsa(key) => push_lsa(&mut self.text, self.alloc, &self.core, &key),
            Shown::Announced(prefix) => push_announced(&mut self.text, &self.core, prefix),
        }
    }

    // Does what a line says, whose last word is this; whether it could be done.
    fn does(&mut self, line: ScriptLine, last: &str) -> Result<bool, AllocError> {
        match line {
            ScriptLine::Happens(moment, happening) => self.happens(moment, happening, last),
            ScriptLine::Shows(shown) => {
                self.show(shown)?;
                Ok(true)
            }
        }
    }

    fn put(&mut self, core: Core) {
        replace(&mut self.core, core).close();
        self.walks = 0;
    }

    // Lets a router begin in place of the one that is there; whether these words say one.
    fn begins_anew(&mut self, words: &[&str]) -> Result<bool, AllocError> {
        let Some(config) = router_of(self.alloc, words)? else {
            return Ok(false);
        };
        match Core::new(self.alloc, &config) {
            Ok(core) => {
                self.put(core);
                Ok(true)
            }
            Err(ConfigError::Interface) => Ok(false),
            Err(ConfigError::Memory) => Err(AllocError),
        }
    }

    // Whether the line says anything.
    fn takes(&mut self, line: &str) -> Result<bool, AllocError> {
        let words: Vec<&str> = line.split(' ').collect(self.alloc)?;
        if let Some((name, of)) = words.split_first() {
            if *name == "router" {
                return self.begins_anew(of);
            }
        }
        let last = words.last().copied().unwrap_or("");
        match line_of(&words) {
            Some(said) => self.does(said, last),
            None => Ok(false),
        }
    }

    // Takes the line of this number; an empty one and a comment say nothing.
    fn plays(&mut self, number: usize, line: &str) -> Result<(), ScriptError> {
        let is_left_out = line.is_empty() || line.starts_with('#');
        if is_left_out || self.takes(line)? {
            Ok(())
        } else {
            Err(ScriptError::Line(number))
        }
    }

    // Plays the lines behind the first.
    fn play_lines(&mut self, lines: &[&str]) -> Result<(), ScriptError> {
        for (index, line) in lines.iter().enumerate() {
            self.plays(index.saturating_add(2), line)?;
        }
        Ok(())
    }

    // Prints what was told so far.
    fn print<O: io::Write>(&mut self, output: &mut O) -> Result<(), ScriptError> {
        let printed = output.write_all(self.text.as_bytes());
        self.text.clear();
        match printed {
            Ok(()) => Ok(()),
            Err(_) => Err(ScriptError::Output),
        }
    }

    // Plays the lines behind the first as they come, and prints at once what each of them makes.
    fn answer_lines<I: BufRead + Drop, O: io::Write>(
        &mut self,
        input: I,
        output: &mut O,
    ) -> Result<(), ScriptError> {
        for (index, line) in input.lines(self.alloc).enumerate() {
            self.plays(index.saturating_add(2), line?.as_str())?;
            self.print(output)?;
        }
        Ok(())
    }

    // Returns what was printed, and drops the router.
    fn close(self) -> String {
        let Stage {
            alloc: _,
            core,
            asker: _,
            walks: _,
            text,
        } = self;
        core.close();
        text
    }
}

// Plays the lines of an area behind the first.
fn play_area_lines(
    area: &mut ScriptArea,
    alloc: Global,
    lines: &[&str],
) -> Result<(), ScriptError> {
    for (index, line) in lines.iter().enumerate() {
        let is_left_out = line.is_empty() || line.starts_with('#');
        let words: Vec<&str> = line.split(' ').collect(alloc)?;
        if !is_left_out && !area.takes(&words)? {
            return Err(ScriptError::Line(index.saturating_add(2)));
        }
    }
    Ok(())
}

// Plays the lines behind a first one of these words, `area ROUTER ADDRESS..`.
fn play_area(alloc: Global, words: &[&str], lines: &[&str]) -> Result<String, ScriptError> {
    let Some(root) = root_of(alloc, words)? else {
        return Err(ScriptError::Line(1));
    };
    let mut area = ScriptArea::new(alloc, root);
    play_area_lines(&mut area, alloc, lines)?;
    Ok(area.told())
}

// Plays the lines of the router that is configured so, whose questions are asked by this asker.
fn play_asking(
    alloc: Global,
    asker: Option<Asker>,
    config: &Config,
    lines: &[&str],
) -> Result<String, ScriptError> {
    let mut stage = Stage::new(alloc, asker, config)?;
    let played = stage.play_lines(lines);
    let text = stage.close();
    match played {
        Ok(()) => Ok(text),
        Err(error) => Err(error),
    }
}

fn play_router<R: Wait + Drop>(
    alloc: Global,
    rt: R,
    config: &Config,
    lines: &[&str],
) -> Result<String, ScriptError> {
    // without the loader an asker answers nothing
    match programs(alloc, rt, 1) {
        Ok((_loader, mut askers)) => play_asking(alloc, askers.pop(), config, lines),
        Err(_) => Err(ScriptError::Memory),
    }
}

// Plays the lines behind the first, which says whose they are.
fn play_behind<R: Wait + Drop + Copy>(
    alloc: Global,
    rt: R,
    first: &str,
    lines: &[&str],
) -> Result<String, ScriptError> {
    let words: Vec<&str> = first.split(' ').collect(alloc)?;
    if let Some((name, of)) = words.split_first() {
        if *name == "area" {
            return play_area(alloc, of, lines);
        }
    }
    match first_of(alloc, &words)? {
        Some(config) => play_router(alloc, rt, &config, lines),
        None => Err(ScriptError::Line(1)),
    }
}

// The router that the first line begins, whose questions are asked by this asker.
fn first_stage(alloc: Global, asker: Option<Asker>, line: &str) -> Result<Stage, ScriptError> {
    let words: Vec<&str> = line.split(' ').collect(alloc)?;
    match first_of(alloc, &words)? {
        Some(config) => Stage::new(alloc, asker, &config),
        None => Err(ScriptError::Line(1)),
    }
}

// Plays the lines behind the first.
fn answer_asking<I: BufRead + Drop, O: io::Write>(
    alloc: Global,
    asker: Option<Asker>,
    first: &str,
    input: I,
    output: &mut O,
) -> Result<(), ScriptError> {
    let mut stage = first_stage(alloc, asker, first)?;
    let answered = stage.answer_lines(input, output);
    let _told = stage.close();
    answered
}

fn answer_behind<R: Wait + Drop, I: BufRead + Drop, O: io::Write>(
    alloc: Global,
    rt: R,
    first: &str,
    input: I,
    output: &mut O,
) -> Result<(), ScriptError> {
    // without the loader an asker answers nothing
    match programs(alloc, rt, 1) {
        Ok((_loader, mut askers)) => answer_asking(alloc, askers.pop(), first, input, output),
        Err(_) => Err(ScriptError::Memory),
    }
}

/// Plays the script, and answers what is printed.
///
/// The first line is `interfaces N` or `router ID MOMENT HELLO DEAD RETRANSMIT PLACE..`, and each
/// other one lets something happen at a router (`MOMENT tick`, `MOMENT packet I HEX`, `MOMENT
/// announce P METRIC`, `MOMENT withdraw P`, `MOMENT down I`, `MOMENT install all`, `MOMENT install
/// nothing`, a line `router ..` again, which begins another one in its place), or shows something
/// (`neighbors`, `owed`, `table`, `candidates`, `offered`, `stale`, `walks`, `database`, `lsas`,
/// `lsa TYPE ID ROUTER`, `announced P`). What goes out is printed as `MOMENT sends I HEX`, a
/// refusal as `MOMENT refused: ` and why.
///
/// Or the first line is `area ROUTER ADDRESS..`: a router and the addresses of its interfaces. Then
/// `MOMENT lsa HEX` lets an LSA come in, `MOMENT candidates` shows the routes that all LSAs offer
/// the router, and `lsa HEX` and `packet HEX` show how bytes are written once they are read, or
/// `refused` and the number of their refusal.
///
/// # Errors
/// `Line` if a line says nothing of this, `Memory` if an allocation was refused.
pub fn play<R: Wait + Drop + Copy>(
    alloc: Global,
    rt: R,
    script: &str,
) -> Result<String, ScriptError> {
    let lines: Vec<&str> = script.split('\n').collect(alloc)?;
    match lines.split_first() {
        Some((first, behind)) => play_behind(alloc, rt, first, behind),
        None => Err(ScriptError::Line(1)),
    }
}

/// Plays the script of a router whose lines come one by one, and prints at once what each of them
/// makes.
///
/// # Errors
/// `Line` if a line says nothing, `Input` if lines can't be read, `Output` if nothing can be
/// printed, `Memory` if an allocation was refused. What was printed before stays.
pub fn answer<R: Wait + Drop + Copy, I: BufRead + Drop, O: io::Write>(
    alloc: Global,
    rt: R,
    mut input: I,
    output: &mut O,
) -> Result<(), ScriptError> {
    let mut first = String::new(alloc);
    input.read_line(&mut first)?;
    let line = first.strip_suffix('\n').unwrap_or(first.as_str());
    answer_behind(alloc, rt, line, input, output)
}
