//! Worked examples of the definitions, and tests of the crates.
#![tactic(auto)]

ghost use Rattle.samples.specs.Examples.{WorkedExamples};

#[cfg(test)]
mod lines;
#[cfg(test)]
mod orders;
#[cfg(test)]
mod setups;
#[cfg(test)]
mod stores;
#[cfg(test)]
mod telegrams;

pub fn worked_examples()
    ensures { WorkedExamples }
{}
