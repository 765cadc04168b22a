//! The table of acts (`specs/Acts.antt`): whose principal is asked for, by which act, on which channel and stream. The laws of
//! this crate cite it, and not the questions that the rules ask.

ghost use Rattle.driver_laws.specs.ActLaws.{RulesAskAsListed};

/// Each rule asks what the table says of its request.
pub fn rules_ask_as_listed()
    ensures { RulesAskAsListed }
{}
