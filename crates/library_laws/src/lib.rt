// What the library's operations do together: theorems only, and no code. Reading and writing undo each other in both
// versions and take no other, there is a sound library of every size in each, and finding, locating and handing out
// agree.
#![tactic(auto)]
