// `phrases help`: what the program is, the commands, what their arguments are, and examples.
pub(crate) const PAGE: &str = "phrases: from the season's sheet to the codes of a message\n\n  \
    phrases sheet SHEET OUT        make the phrase file OUT from a sheet\n  \
    phrases check FILE [FACTOR]    is this phrase file good, and if not, why\n  \
    phrases encode FILE TEXT       the codes of a text as they are sent\n  \
    phrases count FILE TEXT        how many codes and bursts it takes\n  \
    phrases fits FILE TEXT BURSTS  does it fit into so many bursts\n  \
    phrases shortest FILE TEXT     the fewest codes that spell it\n  \
    phrases decode FILE TEXT       the text that codes spell\n  \
    phrases type FILE              count while standard input is typed; backspace takes back\n  \
    phrases why FILE ROW ROW       may two rows stand beside each other; their parts\n  \
    phrases show FILE TEXT OUT     a page (HTML) with the text cut into codes and bursts\n  \
    phrases help                   this page\n\n\
    SHEET has a phrase on each line; a tab and notes may follow. \\xNN, \\t, \\n and \\\\ write\n\
    bytes. FILE is what `sheet` makes. TEXT is a file, or - for standard input; it is taken byte\n\
    for byte, a line end at its end too. A burst has 40 codes. The last line of every answer\n\
    begins with `result:`, for scripts.\n\n  \
    phrases sheet season.tsv season.phr\n  \
    phrases check season.phr\n  \
    printf 'rain in the rain' | phrases count season.phr -\n  \
    phrases show season.phr message.txt message.html\n";
