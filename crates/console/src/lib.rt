//! What the program does without a node: the words of its command line, faults as lines, files in folders, the replay of a
//! history that was saved, pictures of it.
#![tactic(auto)]

pub mod ahead;
pub mod audit;
pub mod command_line;
pub mod datadir;
pub mod export;
pub mod exports;
pub mod fault;
pub mod files;
pub mod history_tree;
pub mod options;
pub mod pictures;
pub mod progress;
pub mod replay;
pub mod report;
pub mod saves;
pub mod text;
pub mod view_options;
