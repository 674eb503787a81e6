// Tests of the edges of a playlist's form, run as they are proved.
#![tactic(auto)]

#[cfg(test)]
mod texts;
