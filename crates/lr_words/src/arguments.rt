//! The arguments of commands, by what their words look like.
ghost use Rattle.std.specs.Prelude.{◌≡◌, IfOk, false};
ghost use Rattle.clap.specs.Words.{App, Rule, app_of, rule_of, with_rule};
ghost use Rattle.lr_words.specs.Arguments.{
  place,
  option,
  capacity_app,
  number_app,
  symbols_app,
  intake_app,
  mended_app,
  line_app,
  workers_app,
  segments_app,
  sent_app,
  block_app,
  stream_app,
  app_of_shape,
};

use crate::shape::Shape;
use clap::{Arg, Command as Parser};
use std::alloc::{AllocError, Global};

/// An argument that has to be there, by its place.
fn place<'a>(alloc: Global, id: &'a str) -> Arg<'a>
    ensures rule { rule_of result ≡ place id.now }
    ensures local { result.global ≡ false }
{
    Arg::new(alloc, id).required(true)
}

/// An option with one value.
fn option<'a>(alloc: Global, id: &'a str) -> Arg<'a>
    ensures rule { rule_of result ≡ option id.now }
    ensures local { result.global ≡ false }
{
    Arg::new(alloc, id).long(id)
}

/// The parser with one more argument. Where memory was refused for the parser, it is refused here.
fn with_arg<'a>(
    parser: Result<Parser<'a>, AllocError>,
    arg: Arg<'a>,
) -> Result<Parser<'a>, AllocError>
    requires { arg.global ≡ false }
    ensures { (app : App) (rule : Rule) → IfOk parser.entry (λ c. app_of c ≡ app) → rule_of arg.entry ≡ rule
        → IfOk result (λ c. app_of c ≡ with_rule app rule) }
{
    parser?.arg(arg)
}

fn capacity_parser<'a>(alloc: Global, name: &'a str) -> Result<Parser<'a>, AllocError>
    ensures { IfOk result (λ c. app_of c ≡ capacity_app name.now) }
{
    Parser::new(alloc, name).arg(place(alloc, "capacity"))
}

fn number_parser<'a>(alloc: Global, name: &'a str) -> Result<Parser<'a>, AllocError>
    ensures { IfOk result (λ c. app_of c ≡ number_app name.now) }
{
    Parser::new(alloc, name).arg(place(alloc, "number"))
}

fn symbols_parser<'a>(alloc: Global, name: &'a str) -> Result<Parser<'a>, AllocError>
    ensures { IfOk result (λ c. app_of c ≡ symbols_app name.now) }
{
    Parser::new(alloc, name).arg(option(alloc, "symbols"))
}

fn intake_parser<'a>(alloc: Global, name: &'a str) -> Result<Parser<'a>, AllocError>
    ensures { IfOk result (λ c. app_of c ≡ intake_app name.now) }
{
    let parser = Parser::new(alloc, name).arg(option(alloc, "input"));
    let parser = with_arg(parser, option(alloc, "workers"));
    let parser = with_arg(parser, option(alloc, "symbols"));
    let parser = with_arg(parser, option(alloc, "line"));
    let parser = with_arg(parser, option(alloc, "g2"));
    with_arg(parser, option(alloc, "passes"))
}

fn mended_parser<'a>(alloc: Global, name: &'a str) -> Result<Parser<'a>, AllocError>
    ensures { IfOk result (λ c. app_of c ≡ mended_app name.now) }
{
    with_arg(intake_parser(alloc, name), option(alloc, "mend"))
}

fn line_parser<'a>(alloc: Global, name: &'a str) -> Result<Parser<'a>, AllocError>
    ensures { IfOk result (λ c. app_of c ≡ line_app name.now) }
{
    let parser = Parser::new(alloc, name).arg(option(alloc, "line"));
    with_arg(parser, option(alloc, "g2"))
}

fn workers_parser<'a>(alloc: Global, name: &'a str) -> Result<Parser<'a>, AllocError>
    ensures { IfOk result (λ c. app_of c ≡ workers_app name.now) }
{
    Parser::new(alloc, name).arg(option(alloc, "workers"))
}

fn segments_parser<'a>(alloc: Global, name: &'a str) -> Result<Parser<'a>, AllocError>
    ensures { IfOk result (λ c. app_of c ≡ segments_app name.now) }
{
    let parser = Parser::new(alloc, name).arg(place(alloc, "from"));
    let parser = with_arg(parser, place(alloc, "to"));
    let parser = with_arg(parser, place(alloc, "apid"));
    with_arg(parser, place(alloc, "image"))
}

fn sent_parser<'a>(alloc: Global, name: &'a str) -> Result<Parser<'a>, AllocError>
    ensures { IfOk result (λ c. app_of c ≡ sent_app name.now) }
{
    let parser = Parser::new(alloc, name).arg(place(alloc, "from"));
    let parser = with_arg(parser, place(alloc, "to"));
    let parser = with_arg(parser, place(alloc, "wrong"));
    let parser = with_arg(parser, option(alloc, "line"));
    with_arg(parser, option(alloc, "g2"))
}

fn block_parser<'a>(alloc: Global, name: &'a str) -> Result<Parser<'a>, AllocError>
    ensures { IfOk result (λ c. app_of c ≡ block_app name.now) }
{
    let parser = Parser::new(alloc, name).arg(place(alloc, "number"));
    with_arg(parser, place(alloc, "block"))
}

/// The three numbers of a test stream, and one option.
fn stream_parser<'a>(alloc: Global, name: &'a str, last: &'a str) -> Result<Parser<'a>, AllocError>
    ensures { IfOk result (λ c. app_of c ≡ stream_app name.now last.now) }
{
    let parser = Parser::new(alloc, name).arg(place(alloc, "start"));
    let parser = with_arg(parser, place(alloc, "frames"));
    let parser = with_arg(parser, place(alloc, "wrong"));
    with_arg(parser, option(alloc, last))
}

/// The parser of a command of this name whose words look like this.
pub(crate) fn parser_of<'a>(
    alloc: Global,
    shape: Shape,
    name: &'a str,
) -> Result<Parser<'a>, AllocError>
    ensures { IfOk result (λ c. app_of c ≡ app_of_shape shape name.now) }
{
    match shape {
        Shape::Capacity => capacity_parser(alloc, name),
        Shape::Nothing(_) => Ok(Parser::new(alloc, name)),
        Shape::Number(_) => number_parser(alloc, name),
        Shape::Symbols(_) => symbols_parser(alloc, name),
        Shape::Intake => intake_parser(alloc, name),
        Shape::MendedIntake => mended_parser(alloc, name),
        Shape::Line => line_parser(alloc, name),
        Shape::Workers => workers_parser(alloc, name),
        Shape::Segments => segments_parser(alloc, name),
        Shape::Sent => sent_parser(alloc, name),
        Shape::Block => block_parser(alloc, name),
        Shape::Made => stream_parser(alloc, name, "output"),
        Shape::Tried => stream_parser(alloc, name, "workers"),
    }
}
