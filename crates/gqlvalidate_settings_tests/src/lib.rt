//! Tests of the settings of configurations: what texts list, what is said of wrong ones, and which files are found.
#![tactic(auto)]

#[cfg(test)]
mod files;
#[cfg(test)]
mod shown;
#[cfg(test)]
mod texts;
