// What lines ask and are answered, on examples.
#![tactic(auto)]

#[cfg(test)]
mod derivations;
#[cfg(test)]
mod holds;
#[cfg(test)]
mod running;
#[cfg(test)]
mod tests;
