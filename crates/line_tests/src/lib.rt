// Tests that drive every line with the same scripts, beside a plain list of messages.
#![tactic(auto)]

#[cfg(test)]
mod beside;
#[cfg(test)]
mod edges;
#[cfg(test)]
mod layout;
#[cfg(test)]
mod scripts;
