// What each reader can refuse with, and where: no function, only what is proved of those below.
#![tactic(auto)]
