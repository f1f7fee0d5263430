// Texts that are read line by line: what a reader of lines does with a text, and that it does the same however the text is cut into reads.
#![tactic(auto)]
