//! Tests of the placement of labels, of their ink and of pictures with labels, by public calls alone: each test checks a value that was
//! worked by hand, or compares with a plain program that reads the rule literally.
#![tactic(auto)]

#[cfg(test)]
mod crowded_texts;
#[cfg(test)]
mod entries;
#[cfg(test)]
mod fonts;
#[cfg(test)]
mod inked_texts;
#[cfg(test)]
mod labelled_maps;
#[cfg(test)]
mod labelled_pictures;
#[cfg(test)]
mod plain_program;
#[cfg(test)]
mod sequences;
#[cfg(test)]
mod worked_labels;
