//! The readers on whole files and on damaged ones.
#![tactic(auto)]

#[cfg(test)]
mod drafts;
#[cfg(test)]
mod files;
#[cfg(test)]
mod jobs;
#[cfg(test)]
mod scenes;
#[cfg(test)]
mod surfaces;
