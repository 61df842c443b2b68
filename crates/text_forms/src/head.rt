// The head of the page, from the document type to what the page says before the totals.
pub(crate) const HEAD: &str = "<!DOCTYPE html>\n\
    <html lang=\"en\">\n\
    <head>\n\
    <meta charset=\"utf-8\">\n\
    <meta name=\"viewport\" content=\"width=device-width, initial-scale=1\">\n\
    <title>A message in codes</title>\n\
    <style>\n\
    body { margin: 0 auto; max-width: 60rem; padding: 1rem; background: #fff; color: #111; \
    font: 1rem/1.3 sans-serif; }\n\
    h1 { margin: 0 0 .5rem; font-size: 1.5rem; }\n\
    h2 { margin: 0 0 .5rem; font-size: 1.1rem; break-after: avoid; }\n\
    ul { display: flex; flex-wrap: wrap; gap: .5rem; margin: 1rem 0; padding: 0; list-style: none; \
    }\n\
    li { flex: 1 1 7rem; padding: .4rem .7rem; border: 1px solid #888; border-radius: .3rem; \
    font-size: .85rem; }\n\
    b { display: block; font-size: 1.5rem; }\n\
    section { margin: 1rem 0; padding: .7rem; border: 2px solid #444; border-radius: .3rem; }\n\
    section p { margin: 0; }\n\
    span { display: inline-block; max-width: 100%; min-width: 1.7rem; box-sizing: border-box; \
    margin: 0 0 .3rem; padding: .15rem .2rem; border: 1px solid #777; border-radius: .2rem; \
    font-family: monospace; text-align: center; vertical-align: top; white-space: break-spaces; \
    overflow-wrap: anywhere; }\n\
    small { display: block; font: .7rem/1.2 sans-serif; color: #333; }\n\
    i { font-size: .8em; color: #8a0000; }\n\
    u { position: relative; text-decoration: none; }\n\
    u::after { content: \"\\B7\"; position: absolute; left: 0; right: 0; text-align: center; \
    color: #666; }\n\
    @media screen {\n\
    .c0 { background: #ffd2d2; }\n\
    .c1 { background: #ffe0bd; }\n\
    .c2 { background: #fff2a8; }\n\
    .c3 { background: #e3f4ae; }\n\
    .c4 { background: #c9f0c9; }\n\
    .c5 { background: #bff0e0; }\n\
    .c6 { background: #c4ecf9; }\n\
    .c7 { background: #cbdcff; }\n\
    .c8 { background: #d9d2ff; }\n\
    .c9 { background: #edcfff; }\n\
    .c10 { background: #ffcdec; }\n\
    .c11 { background: #e2e2e2; }\n\
    }\n\
    @media print {\n\
    body { max-width: none; padding: 0 1px; font-size: 10pt; color: #000; }\n\
    span { border-color: #000; border-radius: 0; }\n\
    section { border: 0; border-top: 2px solid #000; border-radius: 0; padding: .5rem 0 0; \
    break-inside: avoid; }\n\
    small, i { color: #000; }\n\
    }\n\
    </style>\n\
    </head>\n\
    <body>\n\
    <h1>A message in codes</h1>\n\
    <p>Each box is one code: a row of the phrase file, and below it the row's number. A burst \
    carries 40 codes. <u>&nbsp;</u> is a space, <i>&crarr;</i> a line break, <i>\\xNN</i> a byte \
    that is no character by itself.</p>\n\
    <ul>\n";
