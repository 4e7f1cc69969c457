//! The top call.
ghost use Rattle.std.specs.Prelude.{[], ◌≡◌, ◌≤◌, ◌⊎◌, true, Some, IfOk, IfErr};
ghost use Rattle.worktree_fs.specs.Causes.{CountIncreasedOrSaturated, CountNotIncreased};
ghost use Rattle.worktree_fs.specs.Owners.{OwnershipByPath};
ghost use Rattle.worktree_fs.specs.Tree.{Names};
ghost use Rattle.diff_files.specs.Stats.{StatsByPath};
ghost use Rattle.std.specs.Prelude.{Result as ResultOf};
ghost use Rattle.tizhagor.specs.Answers as answers;
ghost use Rattle.tizhagor.specs.Asking.{request_with_call_options};
ghost use Rattle.tizhagor.specs.BothHere as both;
ghost use Rattle.tizhagor.specs.ComparedHere as compared;
ghost use Rattle.tizhagor.specs.Ends.{EndsWithStatusAndStreams, SaysRefusalWithProperty, WritesReplyWhole, SaysRefusalOrMemoryLine, SaysLineWithStatus, RunsToAnswerAndEnds};
ghost use Rattle.tizhagor.specs.Output as output;
ghost use Rattle.tizhagor.specs.Parts.{out_of_memory_line};
ghost use Rattle.tizhagor.specs.Refusals.{memory};
ghost use Rattle.tizhagor.specs.Replies.{HoldsOfOutputOfPlainReply, plain_reply};
ghost use Rattle.tizhagor.specs.declared.reply.Reply.{Reply as ReplyOf};

use crate::both::{WalkAndChangesAsked, list_walked_and_changed_files};
use crate::by_stat::answer_state_by_stat;
use crate::call::Call;
use crate::changed::answer_ls_files_changed;
use crate::check::answer_check_ignore;
use crate::clean::answer_clean;
use crate::compare::{ChangeLines, answer_diff_files_or_state_lines};
use crate::directory::Here;
use crate::excluded_here::answer_ls_files_ignored_index;
use crate::fault::NamesFault;
use crate::files::answer_ls_files;
use crate::finish::finish_with_answer;
use crate::found::request_with_call_options;
use crate::refusal::CommandRefusal;
use crate::reply::{Reply, plain_reply_or_here_refusal};
use crate::texts::find_setup_and_make_call_text;
use crate::written::{Writing, format_text_of_answer};
use command_line::{
    CheckAsked, CleanAsked, Command, Comparing, FilesAsked, Topic, help_text_of_topic,
    parse_request_words, style_for_output, version_line,
};
use diff_files::Stats;
use git_places::Variable;
use git_setup::Asked;
use gitbase_core::Bytes;
use ls_files::{DeletedModifiedChoice, lists_only_ignored_index_entries, needs_worktree_walk};
use std::alloc::Global;
use worktree_fs::{Interrupt, Owners, Sink};
use worktree_report::CountsFaults;

/// What a call comes with: the words behind the program's name; the current directory, an absolute
/// path without links; the variables of the environment; whether the output takes colours; and the
/// standard input.
#[derive(Drop)]
pub struct Called<'a> {
    pub words: &'a [Bytes],
    pub current: &'a [u8],
    pub variables: &'a [Variable],
    pub takes_colors: bool,
    pub input: &'a [u8],
}

/// The bytes for a call, or why there are none.
fn find_setup_and_make_call_bytes<W: CountsFaults, O: Owners, I: Interrupt>(
    alloc: Global,
    worktree: &mut W,
    owners: &mut O,
    interrupt: &mut I,
    here: &Here<'_>,
    call: Call,
    asked: Asked,
    writing: Writing,
) -> Result<Bytes, CommandRefusal>
    ensures { answers.AnswersCallBytes W.Worktree I.Interrupt O.Owners worktree.old worktree.new
        interrupt.old interrupt.new owners.old owners.new (answers.found_in_call_environment
        (answers.call_environment_of_fields here.now.current.now here.now.variables.now true [])
        here.now.directory.now (request_with_call_options call asked)) call writing result }
{
    let asked = request_with_call_options(call, asked);
    let answer = find_setup_and_make_call_text(
        alloc, worktree, owners, interrupt, here, call, &asked,
    );
    format_text_of_answer(alloc, writing, answer)
}

/// What is said of a call, or why nothing is.
fn find_setup_and_make_call_reply<W: CountsFaults, O: Owners, I: Interrupt>(
    alloc: Global,
    worktree: &mut W,
    owners: &mut O,
    interrupt: &mut I,
    here: &Here<'_>,
    call: Call,
    asked: Asked,
    writing: Writing,
) -> Result<Reply, CommandRefusal>
    ensures { HoldsOfOutputOfPlainReply (answers.AnswersCallBytes W.Worktree I.Interrupt O.Owners
        worktree.old worktree.new interrupt.old interrupt.new owners.old owners.new
        (answers.found_in_call_environment (answers.call_environment_of_fields here.now.current.now
        here.now.variables.now true []) here.now.directory.now (request_with_call_options call
        asked)) call writing) result }
{
    let answer = find_setup_and_make_call_bytes(
        alloc, worktree, owners, interrupt, here, call, asked, writing,
    );
    plain_reply_or_here_refusal(alloc, answer)
}

/// A text that is always the same.
fn copy_fixed_text(alloc: Global, text: &[u8]) -> Result<Bytes, CommandRefusal>
    ensures gives { IfOk result (λ bytes. bytes ≡ text.now) }
    ensures refused { IfErr result (λ e. e ≡ memory) }
{
    Ok(Bytes::from_slice(alloc, text)?)
}

/// The same as what a command says.
fn reply_with_fixed_text(alloc: Global, text: &[u8]) -> Result<Reply, CommandRefusal>
    ensures gives { IfOk result (λ reply. reply ≡ plain_reply text.now) }
    ensures refused { IfErr result (λ e. e ≡ memory) }
{
    let answer = copy_fixed_text(alloc, text);
    plain_reply_or_here_refusal(alloc, answer)
}

/// What a command demands. The variants go by how it is answered.
#[derive(Drop)]
pub enum Demand {
    /// What a call says by a setup: `report`, `plan`, `modules` and `state`; and how it is written.
    Call(Call, Asked, Writing),
    /// What `state` says with `--by-stat`, and how it is written.
    State(Asked, Writing),
    /// What `ls-files` prints, with neither `-d` nor `-m`.
    Files(Asked, FilesAsked),
    /// What `ls-files` prints with `-d` or `-m`.
    Changed(Asked, FilesAsked, DeletedModifiedChoice),
    /// What `clean` prints.
    Clean(Asked, CleanAsked),
    /// What `check-ignore` prints.
    Check(Asked, CheckAsked),
    /// What `diff-files` prints.
    Compare(Asked, Comparing),
    /// A help text.
    Help(Topic),
    /// The version of the program.
    Version,
}

/// What a command demands, where the output takes colours or not.
fn demand_of_command(command: Command, takes_colors: bool) -> Demand
    ensures { answers.task_of_demand result ≡ answers.task_of_command takes_colors command }
{
    match command {
        Command::Report { asked, form } => {
            let writing = Writing::Lines(style_for_output(form, takes_colors));
            Demand::Call(Call::Report, asked, writing)
        }
        Command::Plan {
            asked,
            what,
            finding,
            form,
        } => {
            let call = Call::Plan { what, finding };
            Demand::Call(call, asked, Writing::Paths(form.end))
        }
        Command::Modules { asked } => Demand::Call(Call::Modules, asked, Writing::AsItIs),
        Command::State {
            asked,
            form,
            by_stat,
        } => {
            let writing = Writing::Lines(style_for_output(form, takes_colors));
            if by_stat {
                return Demand::State(asked, writing);
            }
            Demand::Call(Call::State, asked, writing)
        }
        Command::Files { asked, files } => Demand::Files(asked, files),
        Command::Changed {
            asked,
            files,
            standings,
        } => Demand::Changed(asked, files, standings),
        Command::Clean { asked, clean } => Demand::Clean(asked, clean),
        Command::Check { asked, checking } => Demand::Check(asked, checking),
        Command::Compare { asked, comparing } => Demand::Compare(asked, comparing),
        Command::Help(topic) => Demand::Help(topic),
        Command::Version => Demand::Version,
    }
}

/// What is said of a demand, or why nothing is.
fn answer_demand<W: CountsFaults, O: Owners, D: Stats, I: Interrupt>(
    alloc: Global,
    worktree: &mut W,
    owners: &mut O,
    stats: &mut D,
    interrupt: &mut I,
    here: &Here<'_>,
    called: &Called<'_>,
    demand: Demand,
) -> Result<Reply, CommandRefusal>
    ensures { compared.AnswersAnyTask W.Worktree I.Interrupt O.Owners D.Stats worktree.old
        worktree.new interrupt.old interrupt.new owners.old owners.new stats.old stats.new
        (answers.call_environment_of_fields here.now.current.now here.now.variables.now
        called.now.takes_colors called.now.input.now) here.now.directory.now result
        (answers.task_of_demand demand) }
{
    match demand {
        Demand::Call(call, asked, writing) => find_setup_and_make_call_reply(
            alloc, worktree, owners, interrupt, here, call, asked, writing,
        ),
        Demand::State(asked, writing) => answer_state_by_stat(
            alloc, worktree, owners, stats, interrupt, here, &asked, writing,
        ),
        Demand::Files(asked, files) => {
            if lists_only_ignored_index_entries(&files.listing) {
                answer_ls_files_ignored_index(alloc, worktree, owners, here, &files, &asked)
            } else {
                answer_ls_files(alloc, worktree, owners, interrupt, here, &files, &asked)
            }
        }
        Demand::Changed(asked, files, standings) => {
            if needs_worktree_walk(&files.listing) {
                let both = WalkAndChangesAsked { files, standings };
                list_walked_and_changed_files(
                    alloc, worktree, owners, stats, interrupt, here, &asked, both,
                )
            } else {
                answer_ls_files_changed(
                    alloc, worktree, owners, stats, here, &asked, &files, standings,
                )
            }
        }
        Demand::Clean(asked, clean) => {
            answer_clean(alloc, worktree, owners, interrupt, here, &clean, asked)
        }
        Demand::Check(asked, checking) => {
            let input = called.input;
            answer_check_ignore(alloc, worktree, owners, here, &asked, &checking, input)
        }
        Demand::Compare(asked, comparing) => {
            let lines = ChangeLines::Differences(comparing);
            answer_diff_files_or_state_lines(alloc, worktree, owners, stats, here, &asked, lines)
        }
        Demand::Help(topic) => reply_with_fixed_text(alloc, help_text_of_topic(topic)),
        Demand::Version => reply_with_fixed_text(alloc, version_line()),
    }
}

/// What is said of a command, or why nothing is.
fn answer_command<W: CountsFaults, O: Owners, D: Stats, I: Interrupt>(
    alloc: Global,
    worktree: &mut W,
    owners: &mut O,
    stats: &mut D,
    interrupt: &mut I,
    called: &Called<'_>,
    directory: &Option<Bytes>,
    command: Command,
) -> Result<Reply, CommandRefusal>
    ensures { compared.AnswersAnyTask W.Worktree I.Interrupt O.Owners D.Stats worktree.old
        worktree.new interrupt.old interrupt.new owners.old owners.new stats.old stats.new
        (answers.call_environment_of_called called.now) directory.now result
        (answers.task_of_command called.now.takes_colors command) }
{
    let here = &Here {
        current: called.current,
        variables: called.variables,
        directory,
    };
    let demand = demand_of_command(command, called.takes_colors);
    answer_demand(
        alloc, worktree, owners, stats, interrupt, here, called, demand,
    )
}

/// What is said of what the words ask for, or why nothing is.
fn parse_and_answer_words<W: CountsFaults, O: Owners, D: Stats, I: Interrupt>(
    alloc: Global,
    worktree: &mut W,
    owners: &mut O,
    stats: &mut D,
    interrupt: &mut I,
    called: &Called<'_>,
) -> Result<Reply, CommandRefusal>
    ensures { both.AnswersWordsOfAnyCommand W.Worktree I.Interrupt O.Owners D.Stats worktree.old
        worktree.new interrupt.old interrupt.new owners.old owners.new stats.old stats.new
        (answers.call_environment_of_called called.now) called.now.words.now result }
{
    let request = parse_request_words(alloc, called.words)?;
    let directory = request.directory;
    answer_command(
        alloc,
        worktree,
        owners,
        stats,
        interrupt,
        called,
        &directory,
        request.command,
    )
}

/// Answers the words of a command line: writes what they ask for to `out`, or says to `err` why
/// there is nothing of that, and answers the status that the program is to end with. Only
/// `check-ignore` with `--stdin` asks for the standard input, as
/// [`read_input_if_words_ask`](crate::input::read_input_if_words_ask) says.
///
/// The words are `[-C DIR] report|plan|modules|state|ls-files|clean|diff-files|check-ignore
/// [OPTION..] [--] [PATH..]`, `--help` or `--version`, as [`parse_request_words`] reads them. The
/// work tree is the one around the directory, and the setup the one that its repository gives, as
/// [`git_setup::find_and_read_setup`] finds them.
///
/// | status | where |
/// |---|---|
/// | 0 | what is asked for was written whole |
/// | 1 | the same, and the answer is no: `ls-files --error-unmatch`, where a path spec is about nothing; a line for each tells it; `diff-files` with `--exit-code` or `--quiet`, where something changed; `check-ignore`, where no path is ignored |
/// | 128 | there is nothing of what is asked for, or `out` refused bytes; the line tells why |
/// | 129 | a word is wrong; the line names it |
/// | 130 | the interrupt was raised, and counted it |
///
/// A work tree is read where it is the user's or safe, as `owners` tell whose it is. What
/// `diff-files`, `ls-files` with `-d` or `-m`, and `state` with `--by-stat` ask of nodes besides,
/// `stats` tell.
///
/// With a status above 1 nothing goes to `out`, but where `out` itself refused bytes, a front of
/// them. With each status above 1 a line goes to `err`, with 129 the usage behind it, with 0 none;
/// that of a fault names the path of the worktree's first one. A refusal of `err` changes no byte
/// of `out`, and no status but to 128. Where a work tree is walked, the interrupt is asked before
/// each directory is read: by `report`, `plan`, `state` and `clean`, and by `ls-files` with `-o` or
/// `-k`. `modules`, `diff-files` and `check-ignore` never ask it.
///
/// See docs/DECISIONS.md#status-of-an-interrupt.
pub fn answer_words_to_streams<W: NamesFault, O: Owners, D: Stats, I: Interrupt, S: Sink, E: Sink>(
    alloc: Global,
    called: &Called<'_>,
    worktree: &mut W,
    owners: &mut O,
    stats: &mut D,
    interrupt: &mut I,
    out: &mut S,
    err: &mut E,
) -> u8
    // What the words ask for came to an answer: bytes, or a refusal with its cause. The status,
    // `out` and `err` are as that answer has it, and what stays is said of each.
    ensures runs { RunsToAnswerAndEnds S.Sink E.Sink out.old out.new err.old err.new
        (W.first_fault worktree.new) (both.AnswersWordsOfAnyCommand W.Worktree I.Interrupt O.Owners
        D.Stats worktree.old worktree.new interrupt.old interrupt.new owners.old owners.new
        stats.old stats.new (answers.call_environment_of_called called.now) called.now.words.now)
        result }

    // Status 0 or 1, but for a report: no fault was counted.
    ensures unfaulted { result ≤ 1 → output.CountsNoFaultForWords
        (answers.call_environment_of_called called.now) called.now.words.now (W.faults worktree.old)
        (W.faults worktree.new) }

    // Status 0 or 1: the owners failed at nothing.
    ensures owners_unfaulted { result ≤ 1 → O.faults owners.new ≡ O.faults owners.old }

    // And so did the stats.
    ensures stats_unfaulted { result ≤ 1 → D.faults stats.new ≡ D.faults stats.old }

    // Status 0 or 1, over a told tree and told owners, and for a report with no fault counted:
    // there is the reply to what the words ask for, from the bytes of `.git` on. What `out` has is
    // what it had, and the reply's bytes; `err` gained its lines; and the status is its own. Where
    // a setup text means the setup that was found, the text of a command is the one by that.
    ensures output { (t : Names) (owned : OwnershipByPath)
        → W.told worktree.old ≡ Some t → O.told owners.old ≡ Some owned → result ≤ 1
        → (reply : ReplyOf) × (output.IsReplyOfWords (W.precomposes worktree.old) t owned
        (answers.call_environment_of_called called.now) called.now.words.now
        (W.faults worktree.old) (W.faults worktree.new) reply
        ⊎ (compared.IsReplyOfStatWords t owned (D.told stats.old)
        (answers.call_environment_of_called called.now) called.now.words.now reply
        ⊎ both.IsWalkStatReplyOfWords (W.precomposes worktree.old) t owned (D.told stats.old)
        (answers.call_environment_of_called called.now) called.now.words.now reply))
        × WritesReplyWhole S.Sink E.Sink out.old out.new err.old err.new reply result }

    // Status 129: a word is wrong. And where one is, that is the status, unless memory was wanted,
    // which is told.
    ensures misuse { result ≡ 129 → answers.WordsAreMisuse called.now.words.now }
    ensures usage { answers.WordsAreMisuse called.now.words.now
        → (result ≡ 129) ⊎ SaysLineWithStatus E.Sink err.old err.new out_of_memory_line 128 result }

    // Status 128, over a told tree and told owners with no fault counted and no output refused:
    // want of memory is told, or what is refused over them: no work tree and no setup is found
    // there, or a report by them is refused, or what tells of submodules is misread.
    ensures fatal { (t : Names) (owned : OwnershipByPath) → W.told worktree.old ≡ Some t
        → O.told owners.old ≡ Some owned → result ≡ 128 → CountNotIncreased (W.faults worktree.old)
        (W.faults worktree.new) → CountNotIncreased (O.faults owners.old) (O.faults owners.new)
        → CountNotIncreased (S.refusals out.old) (S.refusals out.new) → SaysLineWithStatus E.Sink
        err.old err.new out_of_memory_line 128 result ⊎ SaysRefusalWithProperty E.Sink err.old
        err.new (W.first_fault worktree.new) (λ refusal. output.RefusesWordsOverTree
        (W.precomposes worktree.old) t owned (answers.call_environment_of_called called.now)
        called.now.words.now refusal ⊎ (compared.RefusesStatWords t owned (D.told stats.old)
        (D.faults stats.old) (D.faults stats.new) (answers.call_environment_of_called called.now)
        called.now.words.now refusal ⊎ both.RefusesStatPartAfterWalk (W.precomposes worktree.old) t
        owned (D.told stats.old) (D.faults stats.old) (D.faults stats.new)
        (answers.call_environment_of_called called.now) called.now.words.now refusal)) }

    // And the other way: where no work tree and no setup is found over them, and no fault was
    // counted, the line says why, or that memory was wanted, with its status.
    ensures refused { (t : Names) (owned : OwnershipByPath) (e : CommandRefusal) → W.told
        worktree.old ≡ Some t → O.told owners.old ≡ Some owned →
        output.RefusesWordsBeforeSetupIsFound t owned (answers.call_environment_of_called
        called.now) called.now.words.now e → CountNotIncreased (W.faults worktree.old) (W.faults
        worktree.new) → CountNotIncreased (O.faults owners.old) (O.faults owners.new) →
        SaysRefusalOrMemoryLine E.Sink err.old err.new (W.first_fault worktree.new) e result }

    // Status 130: the interrupt was raised.
    ensures interrupted { result ≡ 130
        → CountIncreasedOrSaturated (I.raised interrupt.old) (I.raised interrupt.new) }

    // Valid input, over a told tree and told owners and with nothing counted: 0 or 1, or want of
    // memory is told.
    ensures complete { (t : Names) (owned : OwnershipByPath)
        → W.told worktree.old ≡ Some t → O.told owners.old ≡ Some owned
        → output.AreWordsAnswerableOverTree (W.precomposes worktree.old) t owned
        (answers.call_environment_of_called called.now) called.now.words.now
        → CountNotIncreased (W.faults worktree.old) (W.faults worktree.new)
        → CountNotIncreased (O.faults owners.old) (O.faults owners.new)
        → CountNotIncreased (I.raised interrupt.old) (I.raised interrupt.new)
        → CountNotIncreased (S.refusals out.old) (S.refusals out.new)
        → (result ≤ 1) ⊎ SaysLineWithStatus E.Sink err.old err.new out_of_memory_line 128 result }

    // What is told by stats, over a told tree, told owners and told stats, with no fault counted:
    // it ends as what is found over them does, with its reply or with the line of its refusal; or
    // want of memory is told. So does what is told by a walk and by stats, where the walk can be
    // had and no interrupt was raised.
    ensures compared { (t : Names) (owned : OwnershipByPath) (told : StatsByPath) (wanted : ResultOf
        ReplyOf CommandRefusal) → W.told worktree.old ≡ Some t → O.told owners.old ≡ Some owned →
        D.told stats.old ≡ Some told → compared.StatWordsHaveResult t owned told
        (answers.call_environment_of_called called.now) called.now.words.now wanted ⊎
        (CountNotIncreased (I.raised interrupt.old) (I.raised interrupt.new) ×
        both.WalkAndStatWordsHaveResult (W.precomposes worktree.old) t owned told
        (answers.call_environment_of_called called.now) called.now.words.now wanted) →
        CountNotIncreased (W.faults worktree.old) (W.faults worktree.new) → CountNotIncreased
        (O.faults owners.old) (O.faults owners.new) → CountNotIncreased (D.faults stats.old)
        (D.faults stats.new) → SaysLineWithStatus E.Sink err.old err.new out_of_memory_line 128
        result ⊎ EndsWithStatusAndStreams S.Sink E.Sink out.old out.new err.old err.new
        (W.first_fault worktree.new) wanted result }
{
    let answer = parse_and_answer_words(alloc, worktree, owners, stats, interrupt, called);
    finish_with_answer(alloc, answer, worktree.first_fault(), out, err)
}
