// What every definition and proof uses and document 01 does not name:
// choice by a test, functions with one value replaced, rows of tests, scans;
// and the laws of these and of lists that are filled. It holds no code.
#![tactic(auto)]
