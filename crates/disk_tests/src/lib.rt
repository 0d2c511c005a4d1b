// Tests over the public calls of journals on a disk.
#![tactic(auto)]

#[cfg(test)]
mod contents;
#[cfg(test)]
mod crashes;
#[cfg(test)]
mod files;
#[cfg(test)]
mod images;
