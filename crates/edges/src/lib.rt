// Tests of the edges of the rules, run as they are proved.
#![tactic(auto)]

#[cfg(test)]
mod air;
#[cfg(test)]
mod clocks;
#[cfg(test)]
mod ranks;
#[cfg(test)]
mod stations;
#[cfg(test)]
mod wires;
