//! How sections are found while a configuration grows: they are indexed run by run, so that an
//! index is made of those that are added, and of those before them only where these are no more.
ghost use Rattle.std.specs.Prelude.{◌≡◌, ◌≤◌, ◌++◌, ◌∷◌, [], length, take, drop, option_copied, option_map, reverse, IfSome};
ghost use Rattle.git_config_lite.specs.Lookups as lookups;
ghost use Rattle.git_config_lite.specs.declared.run.Run as declared;
ghost use Rattle.git_config_lite.specs.Runs.{AreIndexRunsOfSections, IsIndexRunFrom, LastIndexRunStartsAt};
ghost use Rattle.git_config_lite.specs.Seen as seen;

use crate::found::FoundValue;
use crate::index::Index;
use crate::lookup::last_value_in_sections;
use crate::run::Run;
use crate::section::Section;
use std::alloc::Global;

/// The last value of a key in the sections of a name and subsection, of which these are the runs.
pub fn last_value_in_runs<'a>(
    runs: &[Run],
    sections: &'a [Section],
    name: &[u8],
    subsection: Option<&[u8]>,
    key: &[u8],
) -> Option<FoundValue<'a>>
    requires { AreIndexRunsOfSections (reverse runs.now) sections.now }
    ensures { option_map seen.found result ≡ lookups.last_value_in_sections name.now
        (option_copied subsection.entry) key.now sections.now }
{
    let mut others = runs;
    let mut left = sections;
    while let Some((run, before)) = others.split_last() {
        let (front, back) = left.split_at(run.start);
        if let Some(found) = run.index.last_value_by_index(back, name, subsection, key) {
            return Some(found);
        }
        left = front;
        others = before;
    }
    last_value_in_sections(left, name, subsection, key)
}

/// The run of all sections behind some; none where memory is refused.
fn index_run_from_start(alloc: Global, sections: &[Section], start: usize) -> Option<Run>
    requires { start ≤ length sections.now }
    ensures { IfSome result (IsIndexRunFrom start sections.now) }
{
    let (_, back) = sections.split_at(start);
    match Index::new(alloc, back) {
        Ok(index) => Some(Run { start, index }),
        Err(_) => None,
    }
}

/// Where the last run starts, if it has no more sections than stand behind it.
fn short_last_run_start(runs: &[Run], start: usize, total: usize) -> Option<usize>
    ensures { IfSome result (LastIndexRunStartsAt runs.now) }
{
    let Some((run, _)) = runs.split_last() else {
        return None;
    };
    if start.saturating_sub(run.start) > total.saturating_sub(start) {
        return None;
    }
    Some(run.start)
}

/// Takes off the last runs as long as they have no more sections than stand behind them, and says
/// how many sections the runs that are left have.
fn pop_short_runs(runs: &mut Vec<Run>, sections: &[Section], start: usize) -> usize
    requires start { start ≤ length sections.now }
    requires runs { AreIndexRunsOfSections (reverse runs.old.items) (take start sections.now) }
    ensures within { result ≤ length sections.now }
    ensures runs { AreIndexRunsOfSections (reverse runs.new.items) (take result sections.now) }
{
    let mut end = start;
    while let Some(at) = short_last_run_start(runs, end, sections.len()) {
        let _run = runs.pop();
        end = at;
    }
    end
}

/// Runs with one more behind them, of all sections that they don't have; no runs where memory is
/// refused.
fn runs_with_run_of_rest(
    alloc: Global,
    runs: Vec<Run>,
    sections: &[Section],
    start: usize,
) -> Vec<Run>
    requires start { start ≤ length sections.now }
    requires runs { AreIndexRunsOfSections (reverse runs.items) (take start sections.now) }
    ensures { AreIndexRunsOfSections (reverse result.items) sections.now }
{
    let Some(run) = index_run_from_start(alloc, sections, start) else {
        return Vec::new(alloc);
    };
    let mut made = runs;
    match made.push(run) {
        Ok(()) => made,
        Err(_) => Vec::new(alloc),
    }
}

/// The runs of sections of which the first have these runs, if any; no runs where memory is
/// refused.
pub fn extend_runs_to_all_sections(
    alloc: Global,
    runs: Vec<Run>,
    sections: &[Section],
    start: usize,
) -> Vec<Run>
    requires start { start ≤ length sections.now }
    requires runs { AreIndexRunsOfSections (reverse runs.items) (take start sections.now) }
    ensures { AreIndexRunsOfSections (reverse result.items) sections.now }
{
    if runs.is_empty() {
        return runs_with_run_of_rest(alloc, Vec::new(alloc), sections, 0);
    }
    let mut long = runs;
    let end = pop_short_runs(&mut long, sections, start);
    runs_with_run_of_rest(alloc, long, sections, end)
}
