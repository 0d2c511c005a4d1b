// Tests over the public calls of sessions whose journals are in a file.
#![tactic(auto)]

#[cfg(test)]
mod damage;
#[cfg(test)]
mod files;
#[cfg(test)]
mod scripts;
