// What is proved, restated in one file: specs/Promises.antt. No code.
#![tactic(auto)]
