// Channel words tallied and mapped, whatever page they belong to: no strip, no header, no check. That the words
// are channels (`IsBody`) stays a premise, not a type's invariant: its public calls, listed in docs/DECISIONS.md, take a plain slice.
#![tactic(auto)]

pub mod levels;
mod near;
pub mod tally;
