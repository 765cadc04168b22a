//! What the command line is made of: a row for each argument, and a form for each subcommand.
//!
//! A new option is a row of its own, beside the others of its subcommand, and its name in that subcommand's form. What it
//! asks for is read from its `id` where the task of the subcommand is made.

use clap::builder::{ValueParser, ValueRange};
use clap::{Arg, ArgAction, Command};
use std::alloc::{AllocError, Global};

/// An argument of a subcommand.
#[derive(Clone, Copy)]
pub(crate) struct Row {
    /// By which its value is asked for. The help calls an argument in its place so, and an option is `--` and this.
    pub(crate) id: &'static str,
    /// What the help calls an option's value.
    pub(crate) value: &'static [&'static str],
    /// What becomes of a value: `Set` takes one, `Append` more than one, and with `SetTrue` the option has none.
    pub(crate) action: ArgAction,
    /// What a value has to be.
    pub(crate) takes: ValueParser<'static>,
    /// Whether it has to be given.
    pub(crate) required: bool,
    /// Options of which one has to be given where this one is not.
    pub(crate) unless: &'static [&'static str],
    /// Options that have to be given too.
    pub(crate) needs: &'static [&'static str],
    /// Options that can't be given too.
    pub(crate) apart: &'static [&'static str],
    /// The value where none is given.
    pub(crate) default: &'static [&'static str],
    pub(crate) help: &'static str,
}

/// A subcommand.
#[derive(Clone, Copy)]
pub(crate) struct Form {
    pub(crate) name: &'static str,
    /// The first line of its help.
    pub(crate) about: &'static str,
    /// The arguments that have a place, in their order.
    pub(crate) places: &'static [Row],
    /// The options, in the order of the help.
    pub(crate) options: &'static [Row],
    /// What its help says after its arguments.
    pub(crate) after: &'static str,
}

/// A text in its place.
pub(crate) const PLACED: Row = Row {
    id: "",
    value: &[],
    action: ArgAction::Set,
    takes: ValueParser::String,
    required: true,
    unless: &[],
    needs: &[],
    apart: &[],
    default: &[],
    help: "",
};

/// A text in its place, or more than one.
pub(crate) const PLACED_AGAIN: Row = Row {
    action: ArgAction::Append,
    ..PLACED
};

/// An option with a text, which may be left out.
pub(crate) const OPTION: Row = Row {
    required: false,
    ..PLACED
};

/// An option with a text, which may be given again.
pub(crate) const AGAIN: Row = Row {
    action: ArgAction::Append,
    ..OPTION
};

/// An option without a value.
pub(crate) const FLAG: Row = Row {
    action: ArgAction::SetTrue,
    takes: ValueParser::Bool,
    ..OPTION
};

/// A number of seconds that is not 0.
pub(crate) const SECONDS: ValueParser<'static> = ValueParser::Unsigned(1, 1_000_000_000);

/// A number of seconds, or of what is bounded.
pub(crate) const UP_TO_BILLION: ValueParser<'static> = ValueParser::Unsigned(0, 1_000_000_000);

/// A number of 32 bits that is not below 0.
pub(crate) const NATURAL: ValueParser<'static> = ValueParser::Signed(0, 2_147_483_647);

/// How many values a use of an argument in its place has.
fn values_of(row: &Row) -> ValueRange {
    match row.action {
        ArgAction::Append => ValueRange::new(1..),
        _ => ValueRange::SINGLE,
    }
}

/// Whether a value of the argument may begin with a minus.
fn may_be_negative(row: &Row) -> bool {
    match row.takes {
        ValueParser::Signed(least, _) => least < 0,
        _ => false,
    }
}

/// The argument of a row.
fn arg_of<'a>(alloc: Global, row: &Row) -> Result<Arg<'a>, AllocError> {
    let takes: ValueParser<'a> = row.takes;
    Arg::new(alloc, row.id)
        .action(row.action)
        .value_parser(takes)
        .value_names(row.value)
        .default_values(row.default)
        .allow_negative_numbers(may_be_negative(row))
        .required(row.required)
        .help(row.help)
        .requires_all(row.needs)
}

/// The argument that has a place.
fn place_of<'a>(alloc: Global, row: &Row) -> Result<Arg<'a>, AllocError> {
    Ok(arg_of(alloc, row)?.num_args(values_of(row)))
}

/// The argument of an option.
fn option_of<'a>(alloc: Global, row: &Row) -> Result<Arg<'a>, AllocError> {
    arg_of(alloc, row)?
        .long(row.id)
        .required_unless_present_any(row.unless)?
        .conflicts_with_all(row.apart)
}

/// With one argument more.
fn with_place<'a>(
    alloc: Global,
    command: Command<'a>,
    row: &Row,
) -> Result<Command<'a>, AllocError> {
    command.arg(place_of(alloc, row)?)
}

/// With one option more.
fn with_option<'a>(
    alloc: Global,
    command: Command<'a>,
    row: &Row,
) -> Result<Command<'a>, AllocError> {
    command.arg(option_of(alloc, row)?)
}

/// With all of these options.
fn with_options<'a>(
    alloc: Global,
    command: Command<'a>,
    rows: &[Row],
) -> Result<Command<'a>, AllocError> {
    let mut command = command;
    for row in rows {
        command = with_option(alloc, command, row)?;
    }
    Ok(command)
}

/// With all of these arguments in their places.
fn with_places<'a>(
    alloc: Global,
    command: Command<'a>,
    rows: &[Row],
) -> Result<Command<'a>, AllocError> {
    let mut command = command;
    for row in rows {
        command = with_place(alloc, command, row)?;
    }
    Ok(command)
}

/// The subcommand of a form.
fn subcommand_of<'a>(alloc: Global, form: &Form) -> Result<Command<'a>, AllocError> {
    let command = Command::new(alloc, form.name)
        .about(form.about)
        .after_help(form.after);
    with_places(
        alloc,
        with_options(alloc, command, form.options)?,
        form.places,
    )
}

/// With one subcommand more.
pub(crate) fn with_form<'a>(
    alloc: Global,
    command: Command<'a>,
    form: &Form,
) -> Result<Command<'a>, AllocError> {
    command.subcommand(subcommand_of(alloc, form)?)
}
