//! The command line as `clap` is told it: four subcommands.
ghost use Rattle.std.specs.Prelude.{◌≡◌, IfOk, false};
ghost use Rattle.clap.specs.Words.{app_of, shape_of};
ghost use Rattle.clap.specs.declared.builder.command.Command.TheViews.{out-Command};
ghost use Rattle.command_line.specs.ClapLine.{run_shape, demo_shape, guards_app};

use clap::{Arg, ArgAction, Command as Line};
use std::alloc::{AllocError, Global};

/// `run`, with the flag `--trace` and the option `--last`, which has a value.
fn run_line<'a>(alloc: Global) -> Result<Line<'a>, AllocError>
    ensures shape { IfOk result (λ line. shape_of line ≡ run_shape) }
    ensures own { IfOk result (λ line. (out-Command line).has_globals ≡ false) }
{
    let trace = Arg::new(alloc, "trace")
        .long("trace")
        .action(ArgAction::SetTrue);
    let last = Arg::new(alloc, "last").long("last").action(ArgAction::Set);
    Line::new(alloc, "run").arg(trace)?.arg(last)
}

/// `demo`, with a number.
fn demo_line<'a>(alloc: Global) -> Result<Line<'a>, AllocError>
    ensures shape { IfOk result (λ line. shape_of line ≡ demo_shape) }
    ensures own { IfOk result (λ line. (out-Command line).has_globals ≡ false) }
{
    let number = Arg::new(alloc, "number").required(true);
    Line::new(alloc, "demo").arg(number)
}

/// All subcommands, without help.
pub(crate) fn guards_line<'a>(alloc: Global) -> Result<Line<'a>, AllocError>
    ensures { IfOk result (λ line. app_of line ≡ guards_app) }
{
    let run = run_line(alloc)?;
    let check = Line::new(alloc, "check");
    let demo = demo_line(alloc)?;
    let audit = Line::new(alloc, "audit");
    let line = Line::new(alloc, "guards")
        .no_binary_name(true)
        .disable_help_flag(true)
        .disable_help_subcommand(true)
        .subcommand_required(true);
    line.subcommand(run)?
        .subcommand(check)?
        .subcommand(demo)?
        .subcommand(audit)
}
