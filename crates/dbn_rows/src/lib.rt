//! Tests of the top call as a whole: worked runs as tables, over objects in memory.
#![tactic(auto)]

#[cfg(test)]
mod tests;
