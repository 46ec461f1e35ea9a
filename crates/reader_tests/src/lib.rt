//! Tests of the readers of binaries and of debugging information: values from outside.
#![tactic(auto)]

#[cfg(test)]
mod of_byte_view;
#[cfg(test)]
mod of_dwarf_abbrev;
#[cfg(test)]
mod of_dwarf_forms;
#[cfg(test)]
mod of_dwarf_info;
#[cfg(test)]
mod of_dwarf_strings;
#[cfg(test)]
mod of_elf_sections;
#[cfg(test)]
mod of_line_program;
#[cfg(test)]
mod of_row_table;
