//! Histories that are run: their answers, the lists that they lead to, and the storage after both ports are closed.
#![tactic(auto)]

#[cfg(test)]
mod histories;
