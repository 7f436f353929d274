// What a plot says above its rows.
ghost use Rattle.std.specs.Prelude.{◌≡◌, ◌++◌, IfOk, OnOk, length};
ghost use Rattle.std.specs.Fmt.{decimal};
ghost use Rattle.lt_svg.specs.Paths.{base_name};
ghost use Rattle.lt_plotting.specs.Words.{along_title, given_words, least_length, lengths_text, most_length, plot_facts, plot_title, run_facts, run_title, told_line, watched_line, window_facts};

use crate::course::Course;
use crate::view::PlotWindow;
use lt_base::{List, Memory, append_number};
use lt_svg::base_name;
use lt_watch::Watched;
use std::alloc::Global;
use std::cmp::{max, min};

// Appends some words and the name of a file.
fn append_named(text: &mut List<u8>, words: &[u8], path: &str) -> Result<(), Memory>
    ensures { OnOk result (text.new ≡ text.old ++ (words.now ++ base_name path.now)) }
{
    text.extend(words)?;
    text.extend(base_name(path.as_bytes()))
}

fn append_run_title(text: &mut List<u8>, schedule: &str, config: &str) -> Result<(), Memory>
    ensures { OnOk result (text.new ≡ text.old ++ run_title schedule.now config.now) }
{
    append_named(text, b" along ", schedule)?;
    append_named(text, b" by ", config)
}

fn append_along(text: &mut List<u8>, along: Option<(&str, &str)>) -> Result<(), Memory>
    ensures { OnOk result (text.new ≡ text.old ++ along_title (given_words along.entry)) }
{
    match along {
        Some((schedule, config)) => append_run_title(text, schedule, config),
        None => Ok(()),
    }
}

/// What is drawn, by the names of its files.
#[tactic(auto, unfolding(crate::specs::Words::plot_title))]
pub(crate) fn plot_title(
    alloc: Global,
    program: &str,
    inputs: &str,
    along: Option<(&str, &str)>,
) -> Result<List<u8>, Memory>
    ensures { IfOk result (λ title. title ≡ plot_title program.now inputs.now (given_words along.entry)) }
{
    let mut title = List::new(alloc);
    append_named(&mut title, b"outputs of ", program)?;
    append_named(&mut title, b" on ", inputs)?;
    append_along(&mut title, along)?;
    Ok(title)
}

// Appends some words and a number.
fn append_counted(text: &mut List<u8>, words: &[u8], number: u64) -> Result<(), Memory>
    ensures { OnOk result (text.new ≡ text.old ++ (words.now ++ decimal number)) }
{
    text.extend(words)?;
    append_number(text, number)
}

fn most_length(lengths: &[usize]) -> usize
    ensures { result ≡ most_length lengths.now }
{
    lengths.iter().fold(0, |most, length| max(most, *length))
}

fn least_length(lengths: &[usize]) -> usize
    ensures { result ≡ least_length lengths.now }
{
    lengths
        .iter()
        .fold(most_length(lengths), |least, length| min(least, *length))
}

// Appends the least and the greatest length, or the only one.
fn append_lengths(text: &mut List<u8>, least: usize, most: usize) -> Result<(), Memory>
    ensures { OnOk result (text.new ≡ text.old ++ lengths_text least most) }
{
    if least < most {
        append_counted(text, b", the run has ", least as u64)?;
        return append_counted(text, b" to ", most as u64);
    }
    append_counted(text, b", the run has ", most as u64)
}

// Appends how far a run came.
fn append_run(text: &mut List<u8>, course: &Course) -> Result<(), Memory>
    ensures { OnOk result (text.new ≡ text.old ++ run_facts course.now) }
{
    if course.run {
        let lengths = course.lengths.as_slice();
        return append_lengths(text, least_length(lengths), most_length(lengths));
    }
    Ok(())
}

// Appends which instants are shown, and of how many.
fn append_window(text: &mut List<u8>, window: PlotWindow, total: u32) -> Result<(), Memory>
    ensures { OnOk result (text.new ≡ text.old ++ window_facts window total) }
{
    let end = u64::from(window.first) + u64::from(window.count);
    append_counted(text, b"instants ", u64::from(window.first))?;
    append_counted(text, b" to ", end.saturating_sub(1))?;
    append_counted(text, b" of ", u64::from(total))
}

/// Which instants are shown, and how far a run came.
#[tactic(auto, unfolding(crate::specs::Words::plot_facts))]
pub(crate) fn plot_facts(
    alloc: Global,
    window: PlotWindow,
    total: u32,
    course: &Course,
) -> Result<List<u8>, Memory>
    ensures { IfOk result (λ facts. facts ≡ plot_facts window total course.now) }
{
    let mut facts = List::new(alloc);
    append_window(&mut facts, window, total)?;
    append_run(&mut facts, course)?;
    Ok(facts)
}

// Appends what an observer makes of the cells.
fn append_watched(text: &mut List<u8>, told: Watched) -> Result<(), Memory>
    ensures { OnOk result (text.new ≡ text.old ++ watched_line told) }
{
    match told {
        Watched::Holds(instants) => append_counted(text, b"holds ", instants as u64),
        Watched::Fails(instant) => append_counted(text, b"fails at ", instant as u64),
    }
}

fn append_told(text: &mut List<u8>, told: Option<Watched>) -> Result<(), Memory>
    ensures { OnOk result (text.new ≡ text.old ++ told_line told) }
{
    match told {
        Some(told) => append_watched(text, told),
        None => Ok(()),
    }
}

/// The line of what an observer makes of the cells; empty where none watches.
pub(crate) fn told_line(alloc: Global, told: Option<Watched>) -> Result<List<u8>, Memory>
    ensures { IfOk result (λ line. line ≡ told_line told) }
{
    let mut line = List::new(alloc);
    append_told(&mut line, told)?;
    Ok(line)
}
